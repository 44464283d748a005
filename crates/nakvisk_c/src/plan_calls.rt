// Exports for C: plans, and conversions by them.
ghost use Rattle.std.specs.Prelude.{◌≡◌};
ghost use Rattle.common.specs.Refusal.{left_by};
ghost use Rattle.layout.specs.Records.{layout_of};
ghost use Rattle.buffer_conversion.specs.Conversion.{convert_into_range};
ghost use Rattle.plans.specs.Records.{custom_answer, for_layouts_answer, plan_of, with_default_answer};
ghost use Rattle.sheets.specs.Frame.{plan_of_sheets, three_sheets};
ghost use Rattle.sheets.specs.Mapping.{mapping_sheet};
ghost use Rattle.sheets.specs.Records.{mapping_answer, sheets_answer};
ghost use Rattle.listing.specs.Text.{listing, text_left};
ghost use Rattle.nakvisk.specs.Calls.{counted_handed, length_left, lost_by_plan, plan_handed, range_given, returned};

use layout::point_layout::PointLayout;
use nakvisk::plan_calls::{NakviskCounted, NakviskPlanAnswer, NakviskPointRange};
use plans::plan::Plan;

// The plan that three sheets give.
#[unsafe(no_mangle)]
pub extern "C" fn nakvisk_plan_of_sheets(
    source_sheet: &[u8],
    target_sheet: &[u8],
    mapping_sheet: &[u8],
) -> NakviskPlanAnswer
    ensures { result ≡ plan_handed (sheets_answer (plan_of_sheets (record { source = source_sheet.now; target = target_sheet.now; mapping = mapping_sheet.now }))) }
{
    nakvisk::plan_calls::nakvisk_plan_of_sheets(source_sheet, target_sheet, mapping_sheet)
}

// The plan of three sheets in one input, each after its length, as `scanplan` reads them.
#[unsafe(no_mangle)]
pub extern "C" fn nakvisk_plan_of_input(input: &[u8]) -> NakviskPlanAnswer
    ensures { result ≡ plan_handed (sheets_answer (three_sheets input.now)) }
{
    nakvisk::plan_calls::nakvisk_plan_of_input(input)
}

// The plan that a mapping sheet gives between two layouts.
#[unsafe(no_mangle)]
pub extern "C" fn nakvisk_plan_of_mapping_sheet(
    source_layout: PointLayout,
    target_layout: PointLayout,
    sheet: &[u8],
) -> NakviskPlanAnswer
    ensures { result ≡ plan_handed (mapping_answer source_layout target_layout (mapping_sheet (layout_of source_layout) (layout_of target_layout) sheet.now)) }
{
    nakvisk::plan_calls::nakvisk_plan_of_mapping_sheet(source_layout, target_layout, sheet)
}

// Every target attribute is mapped by name.
#[unsafe(no_mangle)]
pub extern "C" fn nakvisk_for_layouts(
    source_layout: PointLayout,
    target_layout: PointLayout,
) -> NakviskPlanAnswer
    ensures { result ≡ plan_handed (for_layouts_answer source_layout target_layout) }
{
    nakvisk::plan_calls::nakvisk_for_layouts(source_layout, target_layout)
}

// Target attributes whose name no source attribute has are passed over.
#[unsafe(no_mangle)]
pub extern "C" fn nakvisk_for_layouts_with_default(
    source_layout: PointLayout,
    target_layout: PointLayout,
) -> NakviskPlanAnswer
    ensures { result ≡ plan_handed (with_default_answer source_layout target_layout) }
{
    nakvisk::plan_calls::nakvisk_for_layouts_with_default(source_layout, target_layout)
}

// The plan with that mapping in the place of the one onto its target, or at the end.
#[unsafe(no_mangle)]
pub extern "C" fn nakvisk_set_custom_mapping(
    plan: Plan,
    source_place: u32,
    target_place: u32,
) -> NakviskPlanAnswer
    ensures { result ≡ plan_handed (custom_answer plan source_place target_place) }
{
    nakvisk::plan_calls::nakvisk_set_custom_mapping(plan, source_place, target_place)
}

// The points of the source range converted into those of the target range; lost becomes the number of components that the casts lost, summed over
// the mappings.
#[unsafe(no_mangle)]
pub extern "C" fn nakvisk_convert_by_plan(
    plan: Plan,
    source: &[u8],
    source_range: NakviskPointRange,
    target: &mut [u8],
    target_range: NakviskPointRange,
    lost: &mut u64,
) -> u32
    ensures answer { result ≡ returned (convert_into_range (plan_of plan) source.now (range_given source_range) target.old (range_given target_range)) }
    ensures bytes { target.new ≡ left_by target.old (convert_into_range (plan_of plan) source.now (range_given source_range) target.old (range_given target_range)) }
    ensures lost { lost.new ≡ left_by lost.old (lost_by_plan (plan_of plan) source.now (range_given source_range) target.old (range_given target_range)) }
{
    nakvisk::plan_calls::nakvisk_convert_by_plan(
        plan,
        source,
        source_range,
        target,
        target_range,
        lost,
    )
}

// The points of the source range converted into those of the target range, and what each mapping lost.
#[unsafe(no_mangle)]
pub extern "C" fn nakvisk_convert_by_mapping(
    plan: Plan,
    source: &[u8],
    source_range: NakviskPointRange,
    target: &mut [u8],
    target_range: NakviskPointRange,
) -> NakviskCounted
    ensures answer { result ≡ counted_handed (convert_into_range (plan_of plan) source.now (range_given source_range) target.old (range_given target_range)) (plan_of plan) (range_given source_range) source.now }
    ensures bytes { target.new ≡ left_by target.old (convert_into_range (plan_of plan) source.now (range_given source_range) target.old (range_given target_range)) }
{
    nakvisk::plan_calls::nakvisk_convert_by_mapping(
        plan,
        source,
        source_range,
        target,
        target_range,
    )
}

// The points of the source range converted into those of the target range, without a count.
#[unsafe(no_mangle)]
pub extern "C" fn nakvisk_convert_uncounted(
    plan: Plan,
    source: &[u8],
    source_range: NakviskPointRange,
    target: &mut [u8],
    target_range: NakviskPointRange,
) -> u32
    ensures answer { result ≡ returned (convert_into_range (plan_of plan) source.now (range_given source_range) target.old (range_given target_range)) }
    ensures bytes { target.new ≡ left_by target.old (convert_into_range (plan_of plan) source.now (range_given source_range) target.old (range_given target_range)) }
{
    nakvisk::plan_calls::nakvisk_convert_uncounted(plan, source, source_range, target, target_range)
}

// The listing of the plan, at the start of the text where it fits; else no byte of the text changes. The number written is the listing's
// whole length, also where it does not fit.
#[unsafe(no_mangle)]
pub extern "C" fn nakvisk_list_plan(plan: Plan, text: &mut [u8], written: &mut u32) -> u32
    ensures answer { result ≡ returned (listing (plan_of plan)) }
    ensures bytes { text.new ≡ text_left text.old (listing (plan_of plan)) }
    ensures written { written.new ≡ length_left written.old (listing (plan_of plan)) }
{
    nakvisk::plan_calls::nakvisk_list_plan(plan, text, written)
}
