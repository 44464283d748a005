// Exports for C: datatypes, layouts, lookups in them and their comparison.
ghost use Rattle.std.specs.Prelude.{◌≡◌};
ghost use Rattle.datatype.specs.Datatype.{datatype_of};
ghost use Rattle.layout.specs.Lookup.{compare_without_offsets, get_attribute_by_name, index_of, offset_of};
ghost use Rattle.layout.specs.Records.{add_answer, definition_of, layout_of};
ghost use Rattle.members.specs.Members.{members_answer};
ghost use Rattle.layout_sheets.specs.Records.{sheet_answer};
ghost use Rattle.layout_sheets.specs.Sheet.{layout_sheet};
ghost use Rattle.nakvisk.specs.Calls.{compared_handed, datatype_handed, found_handed, layout_handed};

use datatype::datatype::Datatype;
use layout::point_layout::{
    FieldAlignment, PointAttributeDefinition, PointAttributeMember, PointLayout,
};
use nakvisk::layout_calls::{
    NakviskCompared, NakviskDatatypeAnswer, NakviskFound, NakviskLayoutAnswer,
};

// The size and the alignment of a datatype.
#[unsafe(no_mangle)]
pub extern "C" fn nakvisk_datatype_of(datatype: Datatype) -> NakviskDatatypeAnswer
    ensures { result ≡ datatype_handed (datatype_of datatype) }
{
    nakvisk::layout_calls::nakvisk_datatype_of(datatype)
}

// The layout that a sheet gives.
#[unsafe(no_mangle)]
pub extern "C" fn nakvisk_layout_of_sheet(sheet: &[u8]) -> NakviskLayoutAnswer
    ensures { result ≡ layout_handed (sheet_answer (layout_sheet sheet.now)) }
{
    nakvisk::layout_calls::nakvisk_layout_of_sheet(sheet)
}

// The layout with one attribute more, by Default.
#[unsafe(no_mangle)]
pub extern "C" fn nakvisk_add_attribute(
    layout: PointLayout,
    attribute: PointAttributeDefinition,
) -> NakviskLayoutAnswer
    ensures { result ≡ layout_handed (add_answer layout attribute FieldAlignment.Default) }
{
    nakvisk::layout_calls::nakvisk_add_attribute(layout, attribute)
}

// The layout with one attribute more, Packed of p.
#[unsafe(no_mangle)]
pub extern "C" fn nakvisk_add_attribute_packed(
    layout: PointLayout,
    attribute: PointAttributeDefinition,
    p: u8,
) -> NakviskLayoutAnswer
    ensures { result ≡ layout_handed (add_answer layout attribute (FieldAlignment.Packed p)) }
{
    nakvisk::layout_calls::nakvisk_add_attribute_packed(layout, attribute, p)
}

// The layout of the lent members, each at the offset that it gives, in any order.
#[unsafe(no_mangle)]
pub extern "C" fn nakvisk_layout_of_members(
    members: &[PointAttributeMember],
    alignment: u16,
) -> NakviskLayoutAnswer
    ensures { result ≡ layout_handed (members_answer members.now alignment) }
{
    nakvisk::layout_calls::nakvisk_layout_of_members(members, alignment)
}

// The place of the attribute of that name.
#[unsafe(no_mangle)]
pub extern "C" fn nakvisk_get_attribute_by_name(layout: PointLayout, name: &[u8]) -> NakviskFound
    ensures { result ≡ found_handed (get_attribute_by_name (layout_of layout) name.now) }
{
    nakvisk::layout_calls::nakvisk_get_attribute_by_name(layout, name)
}

// The place of the attribute of that name and datatype.
#[unsafe(no_mangle)]
pub extern "C" fn nakvisk_index_of(
    layout: PointLayout,
    attribute: PointAttributeDefinition,
) -> NakviskFound
    ensures { result ≡ found_handed (index_of (layout_of layout) (definition_of attribute)) }
{
    nakvisk::layout_calls::nakvisk_index_of(layout, attribute)
}

// The offset of the attribute of that name and datatype.
#[unsafe(no_mangle)]
pub extern "C" fn nakvisk_offset_of(
    layout: PointLayout,
    attribute: PointAttributeDefinition,
) -> NakviskFound
    ensures { result ≡ found_handed (offset_of (layout_of layout) (definition_of attribute)) }
{
    nakvisk::layout_calls::nakvisk_offset_of(layout, attribute)
}

// Whether two layouts have the same attributes by name and datatype, in any order and at any offset.
#[unsafe(no_mangle)]
pub extern "C" fn nakvisk_compare_without_offsets(
    layout: PointLayout,
    other: PointLayout,
) -> NakviskCompared
    ensures { result ≡ compared_handed (compare_without_offsets (layout_of layout) (layout_of other)) }
{
    nakvisk::layout_calls::nakvisk_compare_without_offsets(layout, other)
}
