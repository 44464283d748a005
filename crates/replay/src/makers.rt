// The calls that make layouts, and the lookups in them.
use super::text::{Line, Outcome, Result, agree};
use layout::point_layout::{FieldAlignment, PointAttributeDefinition, PointLayout};
use layout_sheets::layout_sheet::read_layout_sheet;

// ---- makers

impl Line<'_> {
    // `d` for Default, `pP` for Packed of P.
    fn alignment(&mut self) -> Result<FieldAlignment> {
        if self.takes(b'p') {
            return Ok(FieldAlignment::Packed(self.number::<u8>(b' ')?));
        }
        self.past(b'd')?;
        self.past(b' ')?;
        Ok(FieldAlignment::Default)
    }
}

// A layout, a definition, the alignment.
pub(crate) fn add(line: &mut Line) -> Result<()> {
    let layout = line.layout()?;
    let definition = line.definition(b' ')?;
    let alignment = line.alignment()?;
    line.due_layout(layout.add_attribute(definition, alignment))
}

// A layout, whose attributes and alignment are given, and whose size is not looked at.
pub(crate) fn given(line: &mut Line) -> Result<()> {
    let layout = line.layout()?;
    line.due_layout(PointLayout::from_members_and_alignment(
        layout.attributes,
        usize::from(layout.count),
        layout.alignment,
    ))
}

// The same with the members lent as a list: the layout's attributes, then a member after them; the count may be 33.
pub(crate) fn lent(line: &mut Line) -> Result<()> {
    let layout = line.layout()?;
    let last = line.member()?;
    line.past(b' ')?;
    let count = usize::from(layout.count);
    agree(count <= 33)?;
    let mut all = [last; 33];
    all[..32].copy_from_slice(&layout.attributes);
    line.due_layout(members::from_members_and_alignment(&all[..count], layout.alignment))
}

// A layout sheet.
pub(crate) fn sheet(line: &mut Line) -> Result<()> {
    let sheet = line.part()?;
    line.due_layout(read_layout_sheet(sheet.as_slice()))
}

// ---- lookups

// What is due where nothing is found.
const NOTHING: u64 = 100000;

fn found(place: Outcome<Option<usize>>) -> Outcome<u64> {
    place.map(|place| place.map_or(NOTHING, |i| i as u64))
}

// By the name of a definition, whose length may pass the 31 bytes that it has.
fn place_by_name(layout: PointLayout, definition: PointAttributeDefinition) -> Outcome<u64> {
    let mut name = [0u8; 255];
    name[..31].copy_from_slice(&definition.name);
    found(layout.get_attribute_by_name(&name[..usize::from(definition.name_len)]))
}

// A layout and a definition; the place by its name, the place by name and datatype, and that one's offset.
pub(crate) fn lookup(line: &mut Line) -> Result<()> {
    let layout = line.layout()?;
    let definition = line.definition(b' ')?;
    line.equals()?;
    line.due_outcome(place_by_name(layout, definition))?;
    line.due_outcome(found(layout.index_of(definition)))?;
    let offset = layout.offset_of(definition);
    line.due_outcome(offset.map(|offset| offset.map_or(NOTHING, u64::from)))
}

// Two layouts; 1 where they are the same without their offsets, 0 where not.
pub(crate) fn compare(line: &mut Line) -> Result<()> {
    let first = line.layout()?;
    let second = line.layout()?;
    line.equals()?;
    line.due_outcome(first.compare_without_offsets(second).map(u64::from))
}
