// Exports for C: single points, views of one attribute and parts of blocks.
ghost use Rattle.std.specs.Prelude.{◌≡◌};
ghost use Rattle.common.specs.Logic.{length};
ghost use Rattle.common.specs.Refusal.{left_by};
ghost use Rattle.layout.specs.Records.{layout_of};
ghost use Rattle.raw_point_converter.specs.Convert.{convert_point};
ghost use Rattle.raw_attribute_view.specs.View.{fields_of, part_in, point_part, write_part, write_point};
ghost use Rattle.nakvisk.specs.Calls.{part_handed, returned, view_handed};

use layout::point_layout::PointLayout;
use nakvisk::point_calls::{NakviskPart, NakviskView, NakviskViewAnswer};

// The source point's attributes cast into the target point's of the same name, where the datatypes are not equal.
#[unsafe(no_mangle)]
pub extern "C" fn nakvisk_convert_point(
    source_layout: PointLayout,
    target_layout: PointLayout,
    source_point: &[u8],
    target_point: &mut [u8],
) -> u32
    ensures answer { result ≡ returned (convert_point (layout_of source_layout) (layout_of target_layout) source_point.now target_point.old) }
    ensures bytes { target_point.new ≡ left_by target_point.old (convert_point (layout_of source_layout) (layout_of target_layout) source_point.now target_point.old) }
{
    nakvisk::point_calls::nakvisk_convert_point(
        source_layout,
        target_layout,
        source_point,
        target_point,
    )
}

// Where the attribute at a place lies in point i of the lent bytes of so many interleaved points.
#[unsafe(no_mangle)]
pub extern "C" fn nakvisk_read_point(
    layout: PointLayout,
    place: u32,
    count: u32,
    point_data: &[u8],
    i: u64,
) -> NakviskPart
    ensures { result ≡ part_handed (point_part (layout_of layout) place count (length point_data.now) i) }
{
    nakvisk::point_calls::nakvisk_read_point(layout, place, count, point_data, i)
}

// The value's bytes written to that part, from its start on, at most as many as it has.
#[unsafe(no_mangle)]
pub extern "C" fn nakvisk_write_point(
    layout: PointLayout,
    place: u32,
    count: u32,
    point_data: &mut [u8],
    i: u64,
    value: &[u8],
) -> u32
    ensures answer { result ≡ returned (write_point (layout_of layout) place count point_data.old i value.now) }
    ensures bytes { point_data.new ≡ left_by point_data.old (write_point (layout_of layout) place count point_data.old i value.now) }
{
    nakvisk::point_calls::nakvisk_write_point(layout, place, count, point_data, i, value)
}

// The view of the attribute at a place over the lent bytes of so many interleaved points.
#[unsafe(no_mangle)]
pub extern "C" fn nakvisk_view_of(
    layout: PointLayout,
    place: u32,
    count: u32,
    point_data: &[u8],
) -> NakviskViewAnswer
    ensures { result ≡ view_handed (fields_of (layout_of layout) place count (length point_data.now)) }
{
    nakvisk::point_calls::nakvisk_view_of(layout, place, count, point_data)
}

// Where point i's part lies in the lent bytes, judged on the view's own fields, whatever the caller filled in.
#[unsafe(no_mangle)]
pub extern "C" fn nakvisk_read_part(view: NakviskView, point_data: &[u8], i: u64) -> NakviskPart
    ensures { result ≡ part_handed (part_in (length point_data.now) view.offset view.stride view.size i) }
{
    nakvisk::point_calls::nakvisk_read_part(view, point_data, i)
}

// The value's bytes written to point i's part, from its start on, at most as many as it has.
#[unsafe(no_mangle)]
pub extern "C" fn nakvisk_write_part(
    view: NakviskView,
    point_data: &mut [u8],
    i: u64,
    value: &[u8],
) -> u32
    ensures answer { result ≡ returned (write_part point_data.old view.offset view.stride view.size i value.now) }
    ensures bytes { point_data.new ≡ left_by point_data.old (write_part point_data.old view.offset view.stride view.size i value.now) }
{
    nakvisk::point_calls::nakvisk_write_part(view, point_data, i, value)
}
