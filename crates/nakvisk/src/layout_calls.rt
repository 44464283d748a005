// Datatypes; layouts by value, made from a sheet, attribute by attribute or from a lent list of members; lookups in them, and their comparison.
ghost use Rattle.std.specs.Prelude.{◌≡◌};
ghost use Rattle.common.specs.Refusal.{outcome_of};
ghost use Rattle.datatype.specs.Datatype.{datatype_of};
ghost use Rattle.layout.specs.Lookup.{compare_without_offsets, get_attribute_by_name, index_of, offset_of};
ghost use Rattle.layout.specs.Records.{add_answer, definition_of, layout_of};
ghost use Rattle.members.specs.Members.{members_answer};
ghost use Rattle.layout_sheets.specs.Records.{sheet_answer};
ghost use Rattle.layout_sheets.specs.Sheet.{layout_sheet};
ghost use Rattle.nakvisk.specs.Calls.{compared_handed, datatype_handed, found_handed, layout_handed};

use common::Refusal;
use datatype::datatype::{Datatype, Properties, datatype_of};
use layout::point_layout::{
    FieldAlignment, PointAttributeDefinition, PointAttributeMember, PointLayout,
};
use layout_sheets::layout_sheet::read_layout_sheet;
use members::from_members_and_alignment;

// ---- datatypes

// 0, and the size and the alignment in bytes; or the number of the refusal, and 0 and 0.
#[repr(C)]
#[derive(Clone, Copy)]
pub struct NakviskDatatypeAnswer {
    pub refusal: u32,
    pub size: u32,
    pub alignment: u32,
}

impl From<Result<Properties, Refusal>> for NakviskDatatypeAnswer {
    ghost from_gives = { λ r a. a ≡ datatype_handed (outcome_of r) };

    fn from(known: Result<Properties, Refusal>) -> NakviskDatatypeAnswer {
        match known {
            Ok(properties) => NakviskDatatypeAnswer {
                refusal: 0,
                size: properties.size as u32,
                alignment: properties.alignment as u32,
            },
            Err(refusal) => NakviskDatatypeAnswer {
                refusal: refusal.number() as u32,
                size: 0,
                alignment: 0,
            },
        }
    }
}

// The size and the alignment of a datatype.
pub fn nakvisk_datatype_of(datatype: Datatype) -> NakviskDatatypeAnswer
    ensures { result ≡ datatype_handed (datatype_of datatype) }
{
    datatype_of(datatype).into()
}

// ---- making one

// 0 and the layout, or the number of the refusal and the empty layout.
#[repr(C)]
#[derive(Clone, Copy)]
pub struct NakviskLayoutAnswer {
    pub refusal: u32,
    pub layout: PointLayout,
}

impl From<Result<PointLayout, Refusal>> for NakviskLayoutAnswer {
    ghost from_gives = { λ r a. a ≡ layout_handed (outcome_of r) };

    fn from(made: Result<PointLayout, Refusal>) -> NakviskLayoutAnswer {
        match made {
            Ok(layout) => NakviskLayoutAnswer { refusal: 0, layout },
            Err(refusal) => NakviskLayoutAnswer {
                refusal: refusal.number() as u32,
                layout: PointLayout::default(),
            },
        }
    }
}

// The layout that a sheet gives.
pub fn nakvisk_layout_of_sheet(sheet: &[u8]) -> NakviskLayoutAnswer
    ensures { result ≡ layout_handed (sheet_answer (layout_sheet sheet.now)) }
{
    read_layout_sheet(sheet).into()
}

// The layout with one attribute more, by Default.
pub fn nakvisk_add_attribute(
    layout: PointLayout,
    attribute: PointAttributeDefinition,
) -> NakviskLayoutAnswer
    ensures { result ≡ layout_handed (add_answer layout attribute FieldAlignment.Default) }
{
    layout
        .add_attribute(attribute, FieldAlignment::Default)
        .into()
}

// The layout with one attribute more, Packed of p.
pub fn nakvisk_add_attribute_packed(
    layout: PointLayout,
    attribute: PointAttributeDefinition,
    p: u8,
) -> NakviskLayoutAnswer
    ensures { result ≡ layout_handed (add_answer layout attribute (FieldAlignment.Packed p)) }
{
    layout
        .add_attribute(attribute, FieldAlignment::Packed(p))
        .into()
}

// The layout of the lent members, each at the offset that it gives, in any order.
pub fn nakvisk_layout_of_members(
    members: &[PointAttributeMember],
    alignment: u16,
) -> NakviskLayoutAnswer
    ensures { result ≡ layout_handed (members_answer members.now alignment) }
{
    from_members_and_alignment(members, alignment).into()
}

// ---- lookups

// 0, and 1 and the place or the offset where there is such an attribute, 0 and 0 where there is none; or the number of the refusal, and 0 and 0.
#[repr(C)]
#[derive(Clone, Copy)]
pub struct NakviskFound {
    pub refusal: u32,
    pub found: u32,
    pub at: u64,
}

impl From<Result<Option<u64>, Refusal>> for NakviskFound {
    ghost from_gives = { λ r a. a ≡ found_handed (outcome_of r) };

    fn from(found: Result<Option<u64>, Refusal>) -> NakviskFound {
        match found {
            Ok(Some(at)) => NakviskFound {
                refusal: 0,
                found: 1,
                at,
            },
            Ok(None) => NakviskFound {
                refusal: 0,
                found: 0,
                at: 0,
            },
            Err(refusal) => NakviskFound {
                refusal: refusal.number() as u32,
                found: 0,
                at: 0,
            },
        }
    }
}

// A place as C's number.
fn place_handed(found: Result<Option<usize>, Refusal>) -> NakviskFound
    ensures { result ≡ found_handed (outcome_of found) }
{
    found.map(|place| place.map(|i| i as u64)).into()
}

// The place of the attribute of that name.
pub fn nakvisk_get_attribute_by_name(layout: PointLayout, name: &[u8]) -> NakviskFound
    ensures { result ≡ found_handed (get_attribute_by_name (layout_of layout) name.now) }
{
    place_handed(layout.get_attribute_by_name(name))
}

// The place of the attribute of that name and datatype.
pub fn nakvisk_index_of(layout: PointLayout, attribute: PointAttributeDefinition) -> NakviskFound
    ensures { result ≡ found_handed (index_of (layout_of layout) (definition_of attribute)) }
{
    place_handed(layout.index_of(attribute))
}

// The offset of the attribute of that name and datatype.
pub fn nakvisk_offset_of(layout: PointLayout, attribute: PointAttributeDefinition) -> NakviskFound
    ensures { result ≡ found_handed (offset_of (layout_of layout) (definition_of attribute)) }
{
    layout
        .offset_of(attribute)
        .map(|offset| offset.map(u64::from))
        .into()
}

// ---- comparison

// 0, and 1 where the layouts have the same attributes, else 0; or the number of the refusal and 0.
#[repr(C)]
#[derive(Clone, Copy)]
pub struct NakviskCompared {
    pub refusal: u32,
    pub same: u32,
}

impl From<Result<bool, Refusal>> for NakviskCompared {
    ghost from_gives = { λ r a. a ≡ compared_handed (outcome_of r) };

    fn from(compared: Result<bool, Refusal>) -> NakviskCompared {
        match compared {
            Ok(same) => NakviskCompared {
                refusal: 0,
                same: same as u32,
            },
            Err(refusal) => NakviskCompared {
                refusal: refusal.number() as u32,
                same: 0,
            },
        }
    }
}

// Whether two layouts have the same attributes by name and datatype, in any order and at any offset.
pub fn nakvisk_compare_without_offsets(layout: PointLayout, other: PointLayout) -> NakviskCompared
    ensures { result ≡ compared_handed (compare_without_offsets (layout_of layout) (layout_of other)) }
{
    layout.compare_without_offsets(other).into()
}
