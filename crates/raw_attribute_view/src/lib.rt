// A view of one attribute over lent point bytes: the bytes, and where each point's part lies in them (raw_attribute_view.rs).
#![tactic(auto)]

ghost use Rattle.std.specs.Prelude.{◌≡◌, ◌<◌, ◌+◌, ◌*◌, ◌^◌, SomeIff};
ghost use Rattle.common.specs.Logic.{length, take};
ghost use Rattle.std.proofs.lemmas.List.Edits.{sets};
ghost use Rattle.common.specs.Refusal.{answer_of, answered, left_by, outcome_of};
ghost use Rattle.layout.specs.Records.{layout_of};
ghost use Rattle.raw_attribute_view.specs.View.{fields_of, part_in, point_part, write_part, write_point};
ghost use Rattle.raw_attribute_view.specs.Records.{IsRead, IsView};

use common::Refusal;
use datatype::datatype::size_of;
use layout::point_layout::PointLayout;

// The value's bytes from the part's start on, as many as fit.
fn fill(part: &mut [u8], value: &[u8])
    ensures { part.new ≡ sets part.old 0 (take (length part.old) value.now) }
{
    let fitting = part.len().min(value.len());
    part[..fitting].copy_from_slice(&value[..fitting]);
}

// So many of the lent bytes, from a start on.
#[derive(Clone, Copy, Debug, PartialEq, Eq)]
pub struct Part {
    pub start: usize,
    pub size: usize,
}

// Where the parts of a view lie: point i's has size bytes, from i times the stride plus the offset on.
#[derive(Clone, Copy, Debug, PartialEq, Eq)]
pub struct ViewShape {
    pub offset: usize,
    pub stride: usize,
    pub size: usize,
}

impl ViewShape {
    // That of the attribute at a place over the bytes of so many interleaved points. Layout, place, count and bytes are the parameters of C's calls, here
    // and below.
    #[tactic(auto, unfolding(crate::specs::View::fields_of, crate::specs::View::view_lines, layout::specs::Records::layout_of, common::specs::Refusal::check, common::specs::Refusal::answer, common::specs::Refusal::outcome))]
    pub fn of_attribute(
        layout: PointLayout,
        place: usize,
        count: u32,
        point_data: &[u8],
    ) -> Result<ViewShape, Refusal>
        ensures { outcome_of result ≡ fields_of (layout_of layout) place count (length point_data.now) }
    {
        if !layout.sound() {
            return Err(Refusal::Unsound);
        }
        if layout.count as usize <= place {
            return Err(Refusal::NoSuchPlace);
        }
        if point_data.len() != count as usize * layout.size as usize {
            return Err(Refusal::SourceLength);
        }
        let m = layout.attributes[place];
        Ok(ViewShape {
            offset: m.offset as usize,
            stride: layout.size as usize,
            size: size_of(m.attribute_definition.datatype) as usize,
        })
    }

    // Where point i's part ends; none where that passes the greatest number.
    fn end(self, i: usize) -> Option<usize>
        ensures { SomeIff result (i * self.stride + self.offset + self.size < 2 ^ 64) (i * self.stride + self.offset + self.size) }
    {
        i.checked_mul(self.stride)?
            .checked_add(self.offset)?
            .checked_add(self.size)
    }

    // Where point i's part lies among len lent bytes. Any numbers may stand in the fields: nothing here wraps.
    #[tactic(auto, unfolding(crate::specs::View::start_in, crate::specs::View::read_lines, common::specs::Refusal::check, common::specs::Refusal::answer, common::specs::Refusal::outcome, common::specs::Refusal::and_then))]
    pub fn part(self, len: usize, i: usize) -> Result<Part, Refusal>
        ensures { outcome_of result ≡ part_in len self.offset self.stride self.size i }
    {
        match self.end(i) {
            Some(end) if end <= len => Ok(Part {
                start: end - self.size,
                size: self.size,
            }),
            _ => Err(Refusal::SourceRange),
        }
    }

    // The value's bytes written to point i's part, from its start on, at most as many as it has. Every other lent byte stays; where it is
    // refused, all do.
    pub fn write(self, point_data: &mut [u8], i: usize, value: &[u8]) -> Result<(), Refusal>
        ensures answer { answered result ≡ answer_of (write_part point_data.old self.offset self.stride self.size i value.now) }
        ensures bytes { point_data.new ≡ left_by point_data.old (write_part point_data.old self.offset self.stride self.size i value.now) }
    {
        let part = self.part(point_data.len(), i)?;
        fill(&mut point_data[part.start..part.start + part.size], value);
        Ok(())
    }
}

// A view keeps the lent point bytes.
#[derive(Clone, Copy)]
pub struct RawAttributeView<'a> {
    pub point_data: &'a [u8],
    pub shape: ViewShape,
}

impl<'a> RawAttributeView<'a> {
    // The view of the attribute at a place, over the bytes of so many interleaved points.
    pub fn from_interleaved_buffer(
        layout: PointLayout,
        place: usize,
        count: u32,
        point_data: &'a [u8],
    ) -> Result<RawAttributeView<'a>, Refusal>
        ensures { IsView (layout_of layout) place count point_data.entry result }
    {
        let shape = ViewShape::of_attribute(layout, place, count, point_data)?;
        Ok(RawAttributeView { point_data, shape })
    }

    // Point i's part of the view's lent bytes, judged on the view's own fields, whatever the caller filled in.
    pub fn read(self, i: usize) -> Result<&'a [u8], Refusal>
        ensures { IsRead self.entry i result }
    {
        let part = self.shape.part(self.point_data.len(), i)?;
        Ok(&self.point_data[part.start..part.start + part.size])
    }
}

// ---- one attribute of one point

// Where the part lies that the view of the attribute at a place shows of point i.
// `PointClaim` says that it is the part of the view that is made and read.
#[tactic(auto, unfolding(crate::specs::View::point_part, common::specs::Refusal::and_then))]
pub fn read_point(
    layout: PointLayout,
    place: usize,
    count: u32,
    point_data: &[u8],
    i: usize,
) -> Result<Part, Refusal>
    ensures { outcome_of result ≡ point_part (layout_of layout) place count (length point_data.now) i }
{
    let shape = ViewShape::of_attribute(layout, place, count, point_data)?;
    shape.part(point_data.len(), i)
}

// The value's bytes written to that part, from its start on, at most as many as it has. Every other lent byte stays; where it is refused, all do.
#[tactic(auto, unfolding(crate::specs::View::write_point, common::specs::Refusal::answer_of, common::specs::Refusal::left_by, common::specs::Refusal::and_then))]
pub fn write_point(
    layout: PointLayout,
    place: usize,
    count: u32,
    point_data: &mut [u8],
    i: usize,
    value: &[u8],
) -> Result<(), Refusal>
    ensures answer { answered result ≡ answer_of (write_point (layout_of layout) place count point_data.old i value.now) }
    ensures bytes { point_data.new ≡ left_by point_data.old (write_point (layout_of layout) place count point_data.old i value.now) }
{
    let shape = ViewShape::of_attribute(layout, place, count, point_data)?;
    shape.write(point_data, i, value)
}
