// Single points, and one attribute of many points: converted, read and written in lent bytes.
ghost use Rattle.std.specs.Prelude.{◌≡◌};
ghost use Rattle.common.specs.Logic.{length};
ghost use Rattle.common.specs.Refusal.{left_by, outcome_of};
ghost use Rattle.layout.specs.Records.{layout_of};
ghost use Rattle.raw_point_converter.specs.Convert.{convert_point};
ghost use Rattle.raw_attribute_view.specs.View.{fields_of, part_in, point_part, write_part, write_point};
ghost use Rattle.nakvisk.specs.Calls.{part_handed, returned, view_handed};

use super::returned;
use common::Refusal;
use layout::point_layout::PointLayout;
use raw_attribute_view::{Part, ViewShape, read_point, write_point};
use raw_point_converter::convert_point;

// The source point's attributes cast into the target point's of the same name, where the datatypes are not equal.
pub fn nakvisk_convert_point(
    source_layout: PointLayout,
    target_layout: PointLayout,
    source_point: &[u8],
    target_point: &mut [u8],
) -> u32
    ensures answer { result ≡ returned (convert_point (layout_of source_layout) (layout_of target_layout) source_point.now target_point.old) }
    ensures bytes { target_point.new ≡ left_by target_point.old (convert_point (layout_of source_layout) (layout_of target_layout) source_point.now target_point.old) }
{
    returned(convert_point(source_layout, target_layout, source_point, target_point))
}

// ---- one attribute of one point

// Where the part lies in the lent bytes, or the number of the refusal and 0 and 0.
#[repr(C)]
#[derive(Clone, Copy)]
pub struct NakviskPart {
    pub refusal: u32,
    pub start: u64,
    pub size: u64,
}

impl From<Result<Part, Refusal>> for NakviskPart {
    ghost from_gives = { λ r a. a ≡ part_handed (outcome_of r) };

    fn from(found: Result<Part, Refusal>) -> NakviskPart {
        match found {
            Ok(part) => NakviskPart {
                refusal: 0,
                start: part.start as u64,
                size: part.size as u64,
            },
            Err(refusal) => NakviskPart {
                refusal: refusal.number() as u32,
                start: 0,
                size: 0,
            },
        }
    }
}

// Where the attribute at a place lies in point i of the lent bytes of so many interleaved points.
pub fn nakvisk_read_point(
    layout: PointLayout,
    place: u32,
    count: u32,
    point_data: &[u8],
    i: u64,
) -> NakviskPart
    ensures { result ≡ part_handed (point_part (layout_of layout) place count (length point_data.now) i) }
{
    read_point(layout, place as usize, count, point_data, i as usize).into()
}

// The value's bytes written to that part, from its start on, at most as many as it has.
pub fn nakvisk_write_point(
    layout: PointLayout,
    place: u32,
    count: u32,
    point_data: &mut [u8],
    i: u64,
    value: &[u8],
) -> u32
    ensures answer { result ≡ returned (write_point (layout_of layout) place count point_data.old i value.now) }
    ensures bytes { point_data.new ≡ left_by point_data.old (write_point (layout_of layout) place count point_data.old i value.now) }
{
    returned(write_point(layout, place as usize, count, point_data, i as usize, value))
}

// ---- one attribute of many points: a view is made once, and its bytes stay the caller's

// Point i's part has so many bytes, from i times the stride plus the offset on.
#[repr(C)]
#[derive(Clone, Copy)]
pub struct NakviskView {
    pub offset: u64,
    pub stride: u64,
    pub size: u64,
}

// 0 and the view, or the number of the refusal and 0 three times.
#[repr(C)]
#[derive(Clone, Copy)]
pub struct NakviskViewAnswer {
    pub refusal: u32,
    pub view: NakviskView,
}

impl From<Result<ViewShape, Refusal>> for NakviskViewAnswer {
    ghost from_gives = { λ r a. a ≡ view_handed (outcome_of r) };

    fn from(made: Result<ViewShape, Refusal>) -> NakviskViewAnswer {
        match made {
            Ok(shape) => NakviskViewAnswer {
                refusal: 0,
                view: NakviskView {
                    offset: shape.offset as u64,
                    stride: shape.stride as u64,
                    size: shape.size as u64,
                },
            },
            Err(refusal) => NakviskViewAnswer {
                refusal: refusal.number() as u32,
                view: NakviskView {
                    offset: 0,
                    stride: 0,
                    size: 0,
                },
            },
        }
    }
}

impl From<NakviskView> for ViewShape {
    ghost from_gives = { λ view shape. shape ≡ record { offset = view.offset; stride = view.stride; size = view.size } };

    fn from(view: NakviskView) -> ViewShape {
        ViewShape {
            offset: view.offset as usize,
            stride: view.stride as usize,
            size: view.size as usize,
        }
    }
}

// The view of the attribute at a place over the lent bytes of so many interleaved points.
pub fn nakvisk_view_of(
    layout: PointLayout,
    place: u32,
    count: u32,
    point_data: &[u8],
) -> NakviskViewAnswer
    ensures { result ≡ view_handed (fields_of (layout_of layout) place count (length point_data.now)) }
{
    ViewShape::of_attribute(layout, place as usize, count, point_data).into()
}

// Where point i's part lies in the lent bytes, judged on the view's own fields, whatever the caller filled in.
pub fn nakvisk_read_part(view: NakviskView, point_data: &[u8], i: u64) -> NakviskPart
    ensures { result ≡ part_handed (part_in (length point_data.now) view.offset view.stride view.size i) }
{
    let shape: ViewShape = view.into();
    shape.part(point_data.len(), i as usize).into()
}

// The value's bytes written to point i's part, from its start on, at most as many as it has.
pub fn nakvisk_write_part(view: NakviskView, point_data: &mut [u8], i: u64, value: &[u8]) -> u32
    ensures answer { result ≡ returned (write_part point_data.old view.offset view.stride view.size i value.now) }
    ensures bytes { point_data.new ≡ left_by point_data.old (write_part point_data.old view.offset view.stride view.size i value.now) }
{
    let shape: ViewShape = view.into();
    returned(shape.write(point_data, i as usize, value))
}
