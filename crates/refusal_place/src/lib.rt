// Where the refusal of three sheets comes from: which sheet, and which attribute or line of it. The refusal itself is told by the calls of `sheets`.
#![tactic(auto)]

ghost use Rattle.std.specs.Prelude.{◌≡◌};
ghost use Rattle.common.specs.Refusal.{answer_of, answered, number_of};
ghost use Rattle.layout.specs.Records.{layout_of};
ghost use Rattle.layout_sheets.specs.Sheet.{first_layout};
ghost use Rattle.refusal_place.specs.Place.{attribute_place, first_targets, is_refusal, line_place, mapping_place, PlaceOfWhole, refusal_place, sheets_place, target_place, Tells};
ghost use Rattle.sheets.specs.Mapping.{first_plan};

use common::Refusal;
use layout::point_layout::PointLayout;
use layout_sheets::layout_sheet::{check_first_attributes, read_layout_sheet};
use sheets::frame::{INPUT_SIZE, Sheets, read_frame};
use sheets::mapping_sheet::{check_first_lines, read_mapping_sheet};

#[derive(Clone, Copy)]
pub enum SheetKind {
    Source,
    Target,
    Mapping,
}

// Attributes and lines are counted from 0.
#[derive(Clone, Copy)]
pub enum RefusalPlace {
    // the three lengths, and the input's end
    Input,
    // a sheet's head or its end, or the alignment of a given one
    Sheet(SheetKind),
    // an attribute of a layout sheet
    Attribute { sheet: SheetKind, place: u8 },
    // a target attribute, in the mapping by name
    Target(u8),
    // a line of the mapping sheet
    Line(u8),
}

fn is_refusal(answer: Result<(), Refusal>, refusal: Refusal) -> bool
    ensures { result ≡ is_refusal (number_of refusal) (answered answer) }
{
    answer == Err(refusal)
}

// The entry with which the refusal first shows, where the first so many entries are answered; none where it shows without any, or with no more than 32 does not.
fn entry_shown<F: Fn(u8) -> Result<(), Refusal>>(refusal: Refusal, first: F) -> Option<u8>
    requires { F.IsAlwaysCallable first }
    ensures { Tells (F.post first) (number_of refusal) result }
{
    for count in 0..33u8 {
        if is_refusal(first(count), refusal) {
            return count.checked_sub(1);
        }
    }
    None
}

// ---- layout sheets

fn attribute_place(kind: SheetKind, sheet: &[u8], refusal: Refusal) -> RefusalPlace
    ensures { result ≡ attribute_place kind sheet.now (number_of refusal) }
{
    match entry_shown(refusal, |count| check_first_attributes(sheet, count)) {
        Some(place) => RefusalPlace::Attribute { sheet: kind, place },
        None => RefusalPlace::Sheet(kind),
    }
}

// ---- mapping sheets

// The layout with its first attributes alone.
fn first_targets(target: PointLayout, most: u8) -> PointLayout
    ensures { layout_of result ≡ first_targets most (layout_of target) }
{
    let attributes = target.attributes;
    PointLayout {
        attributes,
        count: common::least(most as u64, target.count as u64) as u8,
        size: target.size,
        alignment: target.alignment,
    }
}

// A target attribute, before any line.
fn target_place(
    source: PointLayout,
    target: PointLayout,
    sheet: &[u8],
    refusal: Refusal,
) -> RefusalPlace
    ensures { result ≡ target_place (layout_of source) (layout_of target) sheet.now (number_of refusal) }
{
    let check = |count| check_first_lines(source, first_targets(target, count), sheet, 0);
    match entry_shown(refusal, check) {
        Some(place) => RefusalPlace::Target(place),
        None => RefusalPlace::Sheet(SheetKind::Mapping),
    }
}

// A mapping sheet and the two layouts that it is read between are what `check_first_lines` takes.
fn line_place(
    source: PointLayout,
    target: PointLayout,
    sheet: &[u8],
    refusal: Refusal,
) -> RefusalPlace
    ensures { result ≡ line_place (layout_of source) (layout_of target) sheet.now (number_of refusal) }
{
    match entry_shown(
        refusal,
        |count| check_first_lines(source, target, sheet, count),
    ) {
        Some(place) => RefusalPlace::Line(place),
        None => target_place(source, target, sheet, refusal),
    }
}

fn mapping_place(source: PointLayout, target: PointLayout, sheet: &[u8]) -> Option<RefusalPlace>
    ensures { result ≡ mapping_place (layout_of source) (layout_of target) sheet.now }
{
    match read_mapping_sheet(source, target, sheet) {
        Ok(_) => None,
        Err(refusal) => Some(line_place(source, target, sheet, refusal)),
    }
}

// ---- three sheets

// Where the refusal of three sheets comes from, each taken through all its checks in turn; none where nothing is refused.
pub fn place_in_sheets(source: &[u8], target: &[u8], mapping: &[u8]) -> Option<RefusalPlace>
    ensures { result ≡ sheets_place (record { source = source.now; target = target.now; mapping = mapping.now }) }
{
    match read_layout_sheet(source) {
        Err(refusal) => Some(attribute_place(SheetKind::Source, source, refusal)),
        Ok(from) => match read_layout_sheet(target) {
            Err(refusal) => Some(attribute_place(SheetKind::Target, target, refusal)),
            Ok(to) => mapping_place(from, to, mapping),
        },
    }
}

// Where the refusal of an input of three sheets comes from.
pub fn refusal_place(input: &[u8]) -> Option<RefusalPlace>
    ensures { result ≡ refusal_place input.now }
{
    match read_frame(input) {
        Err(_) => Some(RefusalPlace::Input),
        Ok(sheets) => place_in_sheets(sheets.source, sheets.target, sheets.mapping),
    }
}

// The same of an input whose first n bytes were read into the buffer, and which goes on only where they fill it: a full buffer is told by its size.
pub fn place_in_buffer(buffer: [u8; INPUT_SIZE], n: usize) -> Option<RefusalPlace>
    ensures { PlaceOfWhole buffer n result }
{
    if n < INPUT_SIZE {
        return refusal_place(&buffer[..n]);
    }
    refusal_place(&buffer)
}
