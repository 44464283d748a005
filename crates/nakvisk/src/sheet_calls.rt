// Calls over sheets: the conversion, the point size and the listing that they give.
ghost use Rattle.std.specs.Prelude.{◌≡◌};
ghost use Rattle.common.specs.Refusal.{left_by};
ghost use Rattle.listing.specs.Text.{text_left};
ghost use Rattle.nakvisk.specs.Calls.{conversion, length_left, listed, lost_by_sheets, point_size, range_given, returned};

use super::plan_calls::{NakviskPointRange, nakvisk_convert_by_plan, nakvisk_list_plan};
use layout_sheets::layout_sheet::read_layout_sheet;
use sheets::frame::plan_of_sheets;

// The points of the source range, laid out by the source sheet, converted into those of the target range by the mapping sheet; lost becomes the
// number of components that the casts lost, summed over the mappings.
pub fn nakvisk_convert(
    source_sheet: &[u8],
    target_sheet: &[u8],
    mapping_sheet: &[u8],
    source: &[u8],
    source_range: NakviskPointRange,
    target: &mut [u8],
    target_range: NakviskPointRange,
    lost: &mut u64,
) -> u32
    ensures answer { result ≡ returned (conversion (record { source = source_sheet.now; target = target_sheet.now; mapping = mapping_sheet.now }) source.now (range_given source_range) target.old (range_given target_range)) }
    ensures bytes { target.new ≡ left_by target.old (conversion (record { source = source_sheet.now; target = target_sheet.now; mapping = mapping_sheet.now }) source.now (range_given source_range) target.old (range_given target_range)) }
    ensures lost { lost.new ≡ left_by lost.old (lost_by_sheets (record { source = source_sheet.now; target = target_sheet.now; mapping = mapping_sheet.now }) source.now (range_given source_range) target.old (range_given target_range)) }
{
    match plan_of_sheets(source_sheet, target_sheet, mapping_sheet) {
        Ok(plan) => nakvisk_convert_by_plan(plan, source, source_range, target, target_range, lost),
        Err(refusal) => refusal.number() as u32,
    }
}

// The point size of the layout that a sheet gives.
pub fn nakvisk_point_size(layout_sheet: &[u8], size: &mut u32) -> u32
    ensures answer { result ≡ returned (point_size layout_sheet.now) }
    ensures size { size.new ≡ left_by size.old (point_size layout_sheet.now) }
{
    match read_layout_sheet(layout_sheet) {
        Ok(layout) => {
            *size = layout.size as u32;
            0
        }
        Err(refusal) => refusal.number() as u32,
    }
}

// The listing of the plan that three sheets give, at the start of the text where it fits; else no byte of the text changes. The number
// written is the listing's whole length, also where it does not fit.
pub fn nakvisk_list(
    source_sheet: &[u8],
    target_sheet: &[u8],
    mapping_sheet: &[u8],
    text: &mut [u8],
    written: &mut u32,
) -> u32
    ensures answer { result ≡ returned (listed (record { source = source_sheet.now; target = target_sheet.now; mapping = mapping_sheet.now })) }
    ensures bytes { text.new ≡ text_left text.old (listed (record { source = source_sheet.now; target = target_sheet.now; mapping = mapping_sheet.now })) }
    ensures written { written.new ≡ length_left written.old (listed (record { source = source_sheet.now; target = target_sheet.now; mapping = mapping_sheet.now })) }
{
    match plan_of_sheets(source_sheet, target_sheet, mapping_sheet) {
        Ok(plan) => nakvisk_list_plan(plan, text, written),
        Err(refusal) => refusal.number() as u32,
    }
}
