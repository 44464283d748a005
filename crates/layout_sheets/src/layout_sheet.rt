// Layout sheets: read front to back to the first defect, then made into a layout.
ghost use Rattle.std.specs.Prelude.{◌≡◌, ◌≤◌, IfOk};
ghost use Rattle.common.specs.Logic.{length, map};
ghost use Rattle.common.specs.Refusal.{answer_of, answered, outcome_of};
ghost use Rattle.format.specs.Format.{times};
ghost use Rattle.layout.specs.Makers.{empty_layout};
ghost use Rattle.layout.specs.Records.{empty_member};
ghost use Rattle.layout_sheets.specs.Reader.{coded, given, given_as, reads};
ghost use Rattle.layout_sheets.specs.Records.{contents_of, empty_entry, entries_array, entry_of, entry_record, Filled, IsRead, member_record, name_record, Packings, sheet_answer, slots};
ghost use Rattle.layout_sheets.specs.Sheet.{add_all, after_code, array_format, array_length, call_of, custom_format, datatype, entry, first_layout, format_to, given_format, given_of, layout_from, layout_sheet, name, packing, placed_format};

use super::sheet_reader::SheetReader;
use common::Refusal;
use datatype::datatype::Datatype;
use layout::point_layout::{
    FieldAlignment, PointAttributeDefinition, PointAttributeMember, PointLayout,
};

// ---- one attribute

#[derive(Clone, Copy)]
struct Name {
    bytes: [u8; 31],
    len: u8,
}

fn read_name(reader: &mut SheetReader) -> Result<Name, Refusal>
    ensures { given result reader.new ≡ reads (coded name_record name) reader.old }
{
    let len = reader.field(5)? as u8;
    let mut bytes = [0u8; 31];
    for i in 0..len as usize {
        bytes[i] = reader.field_from(8, 0x20, 0x7e, Refusal::BadName)? as u8;
    }
    Ok(Name { bytes, len })
}

// The length of a ByteArray: 8 bits, and 16 more where these are 0.
fn read_array_length(reader: &mut SheetReader) -> Result<u16, Refusal>
    ensures { given result reader.new ≡ reads array_length reader.old }
{
    let length = reader.field(8)?;
    if length == 0 {
        reader.field_from(16, 256, 65535, Refusal::BadSize)
    } else {
        Ok(length)
    }
}

// A ByteArray, after its code.
fn read_array(reader: &mut SheetReader) -> Result<Datatype, Refusal>
    ensures { given result reader.new ≡ reads (array_format array_length) reader.old }
{
    let length = read_array_length(reader)?;
    Ok(Datatype::byte_array(length))
}

// A Custom, after its code: size, alignment and name.
fn read_custom(reader: &mut SheetReader) -> Result<Datatype, Refusal>
    ensures { given result reader.new ≡ reads custom_format reader.old }
{
    let size = reader.field_from(16, 1, 65535, Refusal::BadSize)?;
    let alignment = reader.field(8)?;
    let name_high = reader.wide()?;
    let name_low = reader.wide()?;
    Ok(Datatype::custom(size, alignment as u8, name_high, name_low))
}

// What follows a code.
fn read_after_code(reader: &mut SheetReader, code: u8) -> Result<Datatype, Refusal>
    ensures { given result reader.new ≡ reads (after_code array_length code) reader.old }
{
    if code == 16 {
        read_array(reader)
    } else if code == 17 {
        read_custom(reader)
    } else {
        Ok(Datatype::plain(code))
    }
}

// The code, and what follows it.
fn read_datatype(reader: &mut SheetReader) -> Result<Datatype, Refusal>
    ensures { given result reader.new ≡ reads datatype reader.old }
{
    let code = reader.field_from(5, 0, 17, Refusal::UnknownDatatype)?;
    read_after_code(reader, code as u8)
}

// An attribute's definition, and its packing in a placed sheet, its offset in a given one.
#[derive(Clone, Copy)]
struct SheetEntry {
    definition: PointAttributeDefinition,
    number: u16,
}

fn empty_entry() -> SheetEntry
    ensures { result ≡ empty_entry }
{
    let definition = PointAttributeDefinition {
        name: [0u8; 31],
        name_len: 0,
        datatype: Datatype::plain(0),
    };
    SheetEntry {
        definition,
        number: 0,
    }
}

// One attribute; its number has width bits.
fn read_entry(reader: &mut SheetReader, width: u8) -> Result<SheetEntry, Refusal>
    requires { width ≤ 16 }
    ensures { given result reader.new ≡ reads (coded entry_record (entry datatype width)) reader.old }
{
    let Name { bytes, len } = read_name(reader)?;
    let datatype = read_datatype(reader)?;
    let number = reader.field(width)?;
    let definition = PointAttributeDefinition {
        name: bytes,
        name_len: len,
        datatype,
    };
    Ok(SheetEntry { definition, number })
}

// ---- all attributes

// The count is at most 32, as the sheet's first field says. The bytes of a name, these and the lines of a mapping sheet fill three arrays by three loops:
// a loop over an array of a type parameter is not proved.
fn read_entries(
    reader: &mut SheetReader,
    width: u8,
    count: usize,
) -> Result<[SheetEntry; 32], Refusal>
    requires { (width ≤ 16) × (count ≤ 32) }
    ensures { given result reader.new ≡ reads (coded entries_array (times (entry datatype width) count)) reader.old }
{
    let mut entries = [empty_entry(); 32];
    for i in 0..count {
        entries[i] = read_entry(reader, width)?;
    }
    Ok(entries)
}

// What a sheet says: its attributes, and the alignment where it is a given one. Without heap the attributes are an array, of which the first count are
// listed; that they are within it, `IsRead`, each reader promises and `layout_from` asks, since no type ties the two.
#[derive(Clone, Copy)]
struct Contents {
    entries: [SheetEntry; 32],
    count: usize,
    alignment: Option<u16>,
}

fn read_placed(reader: &mut SheetReader, count: usize) -> Result<Contents, Refusal>
    requires { count ≤ 32 }
    ensures says { given_as contents_of result reader.new ≡ reads (placed_format datatype count) reader.old }
    ensures whole { IfOk result IsRead }
{
    let entries = read_entries(reader, 8, count)?;
    Ok(Contents {
        entries,
        count,
        alignment: None,
    })
}

fn read_given(reader: &mut SheetReader, count: usize) -> Result<Contents, Refusal>
    requires { count ≤ 32 }
    ensures says { given_as contents_of result reader.new ≡ reads (given_format datatype count) reader.old }
    ensures whole { IfOk result IsRead }
{
    let alignment = reader.field(16)?;
    let entries = read_entries(reader, 16, count)?;
    Ok(Contents {
        entries,
        count,
        alignment: Some(alignment),
    })
}

// The sheet as far as its first attributes.
fn read_contents(reader: &mut SheetReader, most: u8) -> Result<Contents, Refusal>
    ensures says { given_as contents_of result reader.new ≡ reads (format_to most) reader.old }
    ensures whole { IfOk result IsRead }
{
    let listed = reader.field_from(6, 0, 32, Refusal::TooMany)?;
    let count = listed.min(most as u16) as usize;
    if reader.field(1)? == 0 {
        read_placed(reader, count)
    } else {
        read_given(reader, count)
    }
}

// ---- the layout

fn packing_of(number: u8) -> FieldAlignment
    ensures { result ≡ packing number }
{
    if number == 0 {
        FieldAlignment::Default
    } else {
        FieldAlignment::Packed(number)
    }
}

// The layout of a placed sheet: each attribute is added to those before it, and the first refusal stops.
fn add_all(entries: &[SheetEntry]) -> Result<PointLayout, Refusal>
    requires { Filled entries.now × Packings entries.now }
    ensures { outcome_of result ≡ sheet_answer (add_all empty_layout (map call_of (map entry_of entries.now))) }
{
    let mut layout = PointLayout::default();
    for entry in entries {
        layout = layout.add_attribute(entry.definition, packing_of(entry.number as u8))?;
    }
    Ok(layout)
}

// The members of a given sheet.
fn members_of(entries: &[SheetEntry]) -> [PointAttributeMember; 32]
    requires { (length entries.now ≤ 32) × Filled entries.now }
    ensures { result ≡ slots empty_member 32 (map member_record (map given_of (map entry_of entries.now))) }
{
    let mut members = PointLayout::default().attributes;
    for (i, entry) in entries.iter().enumerate() {
        members[i] = PointAttributeMember {
            attribute_definition: entry.definition,
            offset: entry.number,
        };
    }
    members
}

fn layout_from(contents: &Contents) -> Result<PointLayout, Refusal>
    requires { IsRead contents.now }
    ensures { outcome_of result ≡ sheet_answer (layout_from (contents_of contents.now)) }
{
    let count = contents.count;
    let entries = &contents.entries[..count];
    match contents.alignment {
        None => add_all(entries),
        Some(alignment) => {
            let members = members_of(entries);
            PointLayout::from_members_and_alignment(members, count, alignment)
        }
    }
}

// The layout that a sheet gives, or the first defect or refusal.
pub fn read_layout_sheet(sheet: &[u8]) -> Result<PointLayout, Refusal>
    ensures { outcome_of result ≡ sheet_answer (layout_sheet sheet.now) }
{
    let mut reader = SheetReader::new(sheet, 0);
    let contents = read_contents(&mut reader, 32)?;
    if !reader.ends() {
        return Err(Refusal::NotAtEnd);
    }
    layout_from(&contents)
}

// The answer to a sheet's first attributes, whatever follows them.
pub fn check_first_attributes(sheet: &[u8], most: u8) -> Result<(), Refusal>
    ensures { answered result ≡ answer_of (first_layout most sheet.now) }
{
    let mut reader = SheetReader::new(sheet, 0);
    let contents = read_contents(&mut reader, most)?;
    layout_from(&contents)?;
    Ok(())
}
