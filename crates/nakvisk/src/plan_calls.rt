// Plans by value: made from sheets, from layouts, or filled in by the caller, and the calls by a plan.
ghost use Rattle.std.specs.Prelude.{◌≡◌};
ghost use Rattle.common.specs.Logic.{min};
ghost use Rattle.common.specs.Refusal.{left_by, outcome_of};
ghost use Rattle.layout.specs.Records.{layout_of};
ghost use Rattle.buffer_conversion.specs.Conversion.{convert_into_range};
ghost use Rattle.plans.specs.Records.{custom_answer, empty_plan, for_layouts_answer, plan_of, with_default_answer};
ghost use Rattle.sheets.specs.Frame.{plan_of_sheets, three_sheets};
ghost use Rattle.sheets.specs.Mapping.{mapping_sheet};
ghost use Rattle.sheets.specs.Records.{mapping_answer, sheets_answer};
ghost use Rattle.listing.specs.Text.{listing, text_left};
ghost use Rattle.nakvisk.specs.Calls.{counted_handed, length_left, lost_by_plan, numbers_handed, plan_handed, range_given, returned};

use super::returned;
use buffer_conversion::convert::{
    convert_by_mapping, convert_into_range, convert_into_range_uncounted,
};
use common::Refusal;
use layout::point_layout::PointLayout;
use listing::lister::list_plan;
use plans::plan::{Mapping, Plan};
use point_buffer::{PointRange, Storage};
use sheets::frame::{plan_of_sheets, read_sheets};
use sheets::mapping_sheet::read_mapping_sheet;

// 0 and the plan, or the number of the refusal and the empty plan.
#[repr(C)]
#[derive(Clone, Copy)]
pub struct NakviskPlanAnswer {
    pub refusal: u32,
    pub plan: Plan,
}

// What C gets beside the number of a refusal.
#[tactic(auto, unfolding(plans::specs::Records::empty_plan))]
fn empty_plan() -> Plan
    ensures { result ≡ empty_plan }
{
    Plan {
        source: PointLayout::default(),
        target: PointLayout::default(),
        mappings: [Mapping {
            source: 0,
            target: 0,
        }; 32],
        count: 0,
    }
}

impl From<Result<Plan, Refusal>> for NakviskPlanAnswer {
    ghost from_gives = { λ r a. a ≡ plan_handed (outcome_of r) };

    fn from(made: Result<Plan, Refusal>) -> NakviskPlanAnswer {
        match made {
            Ok(plan) => NakviskPlanAnswer { refusal: 0, plan },
            Err(refusal) => NakviskPlanAnswer {
                refusal: refusal.number() as u32,
                plan: empty_plan(),
            },
        }
    }
}

// ---- from sheets

// The plan that three sheets give.
pub fn nakvisk_plan_of_sheets(
    source_sheet: &[u8],
    target_sheet: &[u8],
    mapping_sheet: &[u8],
) -> NakviskPlanAnswer
    ensures { result ≡ plan_handed (sheets_answer (plan_of_sheets (record { source = source_sheet.now; target = target_sheet.now; mapping = mapping_sheet.now }))) }
{
    plan_of_sheets(source_sheet, target_sheet, mapping_sheet).into()
}

// The plan of three sheets in one input, each after its length, as `scanplan` reads them.
pub fn nakvisk_plan_of_input(input: &[u8]) -> NakviskPlanAnswer
    ensures { result ≡ plan_handed (sheets_answer (three_sheets input.now)) }
{
    read_sheets(input).into()
}

// The plan that a mapping sheet gives between two layouts.
pub fn nakvisk_plan_of_mapping_sheet(
    source_layout: PointLayout,
    target_layout: PointLayout,
    sheet: &[u8],
) -> NakviskPlanAnswer
    ensures { result ≡ plan_handed (mapping_answer source_layout target_layout (mapping_sheet (layout_of source_layout) (layout_of target_layout) sheet.now)) }
{
    read_mapping_sheet(source_layout, target_layout, sheet).into()
}

// ---- from layouts

// Every target attribute is mapped by name.
pub fn nakvisk_for_layouts(
    source_layout: PointLayout,
    target_layout: PointLayout,
) -> NakviskPlanAnswer
    ensures { result ≡ plan_handed (for_layouts_answer source_layout target_layout) }
{
    Plan::for_layouts(source_layout, target_layout).into()
}

// Target attributes whose name no source attribute has are passed over.
pub fn nakvisk_for_layouts_with_default(
    source_layout: PointLayout,
    target_layout: PointLayout,
) -> NakviskPlanAnswer
    ensures { result ≡ plan_handed (with_default_answer source_layout target_layout) }
{
    Plan::for_layouts_with_default(source_layout, target_layout).into()
}

// The place in 8 bits: one past them is in no list, and neither is 255.
fn small_place(place: u32) -> u8
    ensures { result ≡ min place 255 }
{
    if place < 255 { place as u8 } else { 255 }
}

// The plan with that mapping in the place of the one onto its target, or at the end.
pub fn nakvisk_set_custom_mapping(
    plan: Plan,
    source_place: u32,
    target_place: u32,
) -> NakviskPlanAnswer
    ensures { result ≡ plan_handed (custom_answer plan source_place target_place) }
{
    let source = small_place(source_place);
    let target = small_place(target_place);
    plan.set_custom_mapping(source, target).into()
}

// ---- by a plan

// A range of the points of a buffer of so many, from the start to before the end. The storage is 0 for interleaved points; any other number
// is columns.
#[repr(C)]
#[derive(Clone, Copy)]
pub struct NakviskPointRange {
    pub storage: u32,
    pub count: u32,
    pub start: u32,
    pub end: u32,
}

impl From<NakviskPointRange> for PointRange {
    ghost from_gives = { λ given range. range ≡ range_given given };

    #[tactic(auto, unfolding(crate::specs::Calls::range_given, crate::specs::Calls::storage_given))]
    fn from(given: NakviskPointRange) -> PointRange {
        PointRange {
            storage: if given.storage == 0 {
                Storage::Interleaved
            } else {
                Storage::Columns
            },
            count: given.count,
            start: given.start,
            end: given.end,
        }
    }
}

// The points of the source range converted into those of the target range; lost becomes the number of components that the casts lost, summed over
// the mappings.
pub fn nakvisk_convert_by_plan(
    plan: Plan,
    source: &[u8],
    source_range: NakviskPointRange,
    target: &mut [u8],
    target_range: NakviskPointRange,
    lost: &mut u64,
) -> u32
    ensures answer { result ≡ returned (convert_into_range (plan_of plan) source.now (range_given source_range) target.old (range_given target_range)) }
    ensures bytes { target.new ≡ left_by target.old (convert_into_range (plan_of plan) source.now (range_given source_range) target.old (range_given target_range)) }
    ensures lost { lost.new ≡ left_by lost.old (lost_by_plan (plan_of plan) source.now (range_given source_range) target.old (range_given target_range)) }
{
    match convert_into_range(
        plan,
        source,
        source_range.into(),
        target,
        target_range.into(),
    ) {
        Ok(n) => {
            *lost = n;
            0
        }
        Err(refusal) => refusal.number() as u32,
    }
}

// 0, and the number of components that each mapping lost: as many numbers as the plan has mappings, in its order, then zeros; or the number of
// the refusal, and zeros.
#[repr(C)]
#[derive(Clone, Copy)]
pub struct NakviskCounted {
    pub refusal: u32,
    pub lost: [u64; 32],
}

impl From<Result<[u64; 32], Refusal>> for NakviskCounted {
    ghost from_gives = { λ r a. a ≡ numbers_handed (outcome_of r) };

    fn from(counted: Result<[u64; 32], Refusal>) -> NakviskCounted {
        match counted {
            Ok(lost) => NakviskCounted { refusal: 0, lost },
            Err(refusal) => NakviskCounted {
                refusal: refusal.number() as u32,
                lost: [0; 32],
            },
        }
    }
}

// The points of the source range converted into those of the target range, and what each mapping lost.
pub fn nakvisk_convert_by_mapping(
    plan: Plan,
    source: &[u8],
    source_range: NakviskPointRange,
    target: &mut [u8],
    target_range: NakviskPointRange,
) -> NakviskCounted
    ensures answer { result ≡ counted_handed (convert_into_range (plan_of plan) source.now (range_given source_range) target.old (range_given target_range)) (plan_of plan) (range_given source_range) source.now }
    ensures bytes { target.new ≡ left_by target.old (convert_into_range (plan_of plan) source.now (range_given source_range) target.old (range_given target_range)) }
{
    convert_by_mapping(
        plan,
        source,
        source_range.into(),
        target,
        target_range.into(),
    )
    .into()
}

// The points of the source range converted into those of the target range, without a count.
pub fn nakvisk_convert_uncounted(
    plan: Plan,
    source: &[u8],
    source_range: NakviskPointRange,
    target: &mut [u8],
    target_range: NakviskPointRange,
) -> u32
    ensures answer { result ≡ returned (convert_into_range (plan_of plan) source.now (range_given source_range) target.old (range_given target_range)) }
    ensures bytes { target.new ≡ left_by target.old (convert_into_range (plan_of plan) source.now (range_given source_range) target.old (range_given target_range)) }
{
    returned(convert_into_range_uncounted(
        plan,
        source,
        source_range.into(),
        target,
        target_range.into(),
    ))
}

// The listing of the plan, at the start of the text where it fits; else no byte of the text changes. The number written is the listing's
// whole length, also where it does not fit.
pub fn nakvisk_list_plan(plan: Plan, text: &mut [u8], written: &mut u32) -> u32
    ensures answer { result ≡ returned (listing (plan_of plan)) }
    ensures bytes { text.new ≡ text_left text.old (listing (plan_of plan)) }
    ensures written { written.new ≡ length_left written.old (listing (plan_of plan)) }
{
    match list_plan(plan, text) {
        Ok(n) => {
            *written = n as u32;
            0
        }
        Err(refusal) => refusal.number() as u32,
    }
}
