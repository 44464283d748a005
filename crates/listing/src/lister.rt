// The listing of a plan, or the line of a refusal, handed over in a lent text.
ghost use Rattle.std.specs.Prelude.{◌≡◌, ◌++◌, ◌≤◌, ◌+◌, ◌*◌, [], length};
ghost use Rattle.common.specs.Logic.{true, flat_map};
ghost use Rattle.common.specs.Refusal.{outcome_of};
ghost use Rattle.plans.specs.Plan.{is_sound_plan};
ghost use Rattle.plans.specs.Records.{plan_of};
ghost use Rattle.listing.specs.Text.{mapping_line, plan_lines, refusal_line, listing, handed, text_left, listed_answer, length_in};

use super::lines::{push_layout, push_mapping, push_refusal};
use super::text::Text;
use common::Refusal;
use plans::plan::Plan;

// Bytes that are enough for every listing: two first lines of 22 and 32 mappings of 61.
pub const LISTING_SIZE: usize = 1996;

// The line of each mapping, in plan order.
fn push_mappings(lines: &mut Text, plan: &Plan)
    requires { (is_sound_plan (plan_of plan.now) ≡ true) × (length lines.old + 61 * plan.now.count ≤ 1996) }
    ensures lines { lines.new ≡ lines.old ++ flat_map (mapping_line (plan_of plan.now).source (plan_of plan.now).target) (plan_of plan.now).mappings }
    ensures size { length lines.new ≤ length lines.old + 61 * plan.now.count }
{
    for m in &plan.mappings[..plan.count as usize] {
        let source = &plan.source.attributes[m.source as usize];
        let target = &plan.target.attributes[m.target as usize];
        push_mapping(lines, source, target);
    }
}

// The whole listing of a sound plan.
fn push_plan(lines: &mut Text, plan: &Plan)
    requires { (is_sound_plan (plan_of plan.now) ≡ true) × (lines.old ≡ []) }
    ensures lines { lines.new ≡ plan_lines (plan_of plan.now) }
    ensures size { length lines.new ≤ 1996 }
{
    push_layout(lines, b"source", &plan.source);
    push_layout(lines, b"target", &plan.target);
    push_mappings(lines, plan);
}

// Copies a listing to the start of the text where it fits; else no byte changes.
#[tactic(auto, using(std::proofs::lemmas::Bool::Decides::nat_tests), unfolding(crate::specs::Text::handed))]
fn hand_over(listing: &[u8], text: &mut [u8])
    ensures { text.new ≡ handed text.old listing.now }
{
    let n = listing.len();
    if n <= text.len() {
        text[..n].copy_from_slice(listing);
    }
}

// Answers how long the plan's listing is, at most LISTING_SIZE bytes. It stands at the start of the text where it fits; else no byte
// changes. Refused where the plan is not sound, and no byte changes.
pub fn list_plan(plan: Plan, text: &mut [u8]) -> Result<usize, Refusal>
    ensures answer { outcome_of result ≡ listed_answer (listing (plan_of plan)) }
    ensures size { length_in (outcome_of result) ≤ 1996 }
    ensures bytes { text.new ≡ text_left text.old (listing (plan_of plan)) }
{
    if !plan.sound() {
        return Err(Refusal::Unsound);
    }
    let mut lines = Text::new();
    push_plan(&mut lines, &plan);
    let listing = lines.as_bytes();
    hand_over(listing, text);
    Ok(listing.len())
}

// Answers how long the line of a refusal is, which a program prints in the place of a listing. It is handed over as a listing is.
pub fn list_refusal(number: u8, text: &mut [u8]) -> usize
    ensures answer { result ≡ length (refusal_line number) }
    ensures size { result ≤ 12 }
    ensures bytes { text.new ≡ handed text.old (refusal_line number) }
{
    let mut lines = Text::new();
    push_refusal(&mut lines, number);
    let line = lines.as_bytes();
    hand_over(line, text);
    line.len()
}
