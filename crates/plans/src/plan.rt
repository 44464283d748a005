// Plans: which source attribute each mapped target attribute is made from (buffer_conversion.rs).
ghost use Rattle.std.specs.Prelude.{◌≡◌, ◌≤◌};
ghost use Rattle.common.specs.Logic.{true, not};
ghost use Rattle.common.specs.Lists.{place_from};
ghost use Rattle.common.specs.Refusal.{answer, answered, line_answer, outcome_of};
ghost use Rattle.layout.specs.Layout.{good_attribute, is_sound};
ghost use Rattle.layout.specs.Records.{attribute_of, layout_of};
ghost use Rattle.pairs.specs.Pairs.{pair_of, has_entry};
ghost use Rattle.plans.specs.Makers.{has_target, mapping_lines};
ghost use Rattle.plans.specs.Plan.{is_sound_plan};
ghost use Rattle.plans.specs.Records.{plan_of, for_layouts_answer, with_default_answer, custom_answer};
ghost use Rattle.plans.specs.Steps.{all_fit, source_answer, by_name_answer};

use common::Refusal;
use datatype::datatype::Datatype;
use layout::point_layout::{PointAttributeMember, PointLayout};
use pairs::pair::has_entry;

// The target attribute at its place is made from the source attribute at its place; places count from 0.
#[repr(C)]
#[derive(Clone, Copy)]
pub struct Mapping {
    pub source: u8,
    pub target: u8,
}

// The first count mappings are listed, the others are not looked at.
#[repr(C)]
#[derive(Clone, Copy)]
pub struct Plan {
    pub source: PointLayout,
    pub target: PointLayout,
    pub mappings: [Mapping; 32],
    pub count: u8,
}

// ---- one mapping

// 14, of two datatypes.
fn check_pair(from: Datatype, to: Datatype) -> Result<(), Refusal>
    ensures { answered result ≡ line_answer 14 (not (has_entry (pair_of «from» to))) }
{
    if has_entry(from, to) {
        return Ok(());
    }
    Err(Refusal::NoCast)
}

// 13 and 14, of one mapping.
fn check_mapping(
    source: &PointLayout,
    target: &PointLayout,
    mapping: Mapping,
) -> Result<(), Refusal>
    requires { (source.now.count ≤ 32) × (target.now.count ≤ 32) }
    ensures { answered result ≡ answer (mapping_lines (layout_of source.now) (layout_of target.now) mapping) }
{
    if source.count <= mapping.source || target.count <= mapping.target {
        return Err(Refusal::NoSuchPlace);
    }
    let a = source.attributes[mapping.source as usize];
    let b = target.attributes[mapping.target as usize];
    check_pair(
        a.attribute_definition.datatype,
        b.attribute_definition.datatype,
    )
}

// ---- lists of mappings

// The place of the mapping onto that target.
fn place_of_target(mappings: &[Mapping], target: u8) -> Option<usize>
    ensures { result ≡ place_from 0 (has_target target) mappings.now }
{
    mappings.iter().position(|m| m.target == target)
}

// The mappings have listed places, distinct targets, and pairs with copy or cast.
fn all_fit(source: &PointLayout, target: &PointLayout, mappings: &[Mapping]) -> bool
    requires { (source.now.count ≤ 32) × (target.now.count ≤ 32) }
    ensures { result ≡ all_fit (layout_of source.now) (layout_of target.now) mappings.now }
{
    for i in 0..mappings.len() {
        let m = mappings[i];
        if check_mapping(source, target, m).is_err()
            || place_of_target(&mappings[..i], m.target).is_some()
        {
            return false;
        }
    }
    true
}

// ---- plans by name

// What is made of a target attribute whose name no source attribute has.
#[derive(Clone, Copy)]
pub enum MissingSource {
    Refuse,
    PassOver,
}

// The place of the source attribute of the target's name, if there is one; 12 and 14.
fn source_for(
    source: &PointLayout,
    target: PointAttributeMember,
    missing: MissingSource,
) -> Result<Option<usize>, Refusal>
    requires { (is_sound (layout_of source.now) ≡ true) × (good_attribute (attribute_of target) ≡ true) }
    ensures { outcome_of result ≡ source_answer missing (layout_of source.now) (attribute_of target) }
{
    let d = target.attribute_definition;
    match source.get_attribute_by_name(d.name_bytes())? {
        Some(i) => {
            let a = source.attributes[i];
            check_pair(a.attribute_definition.datatype, d.datatype)?;
            Ok(Some(i))
        }
        None => match missing {
            MissingSource::Refuse => Err(Refusal::NoSource),
            MissingSource::PassOver => Ok(None),
        },
    }
}

// The plan by name.
fn plan_by_name(
    source: PointLayout,
    target: PointLayout,
    missing: MissingSource,
) -> Result<Plan, Refusal>
    ensures { outcome_of result ≡ by_name_answer missing source target }
{
    if !source.sound() || !target.sound() {
        return Err(Refusal::Unsound);
    }
    let mut mappings = [Mapping {
        source: 0,
        target: 0,
    }; 32];
    let mut count: u8 = 0;
    for j in 0..target.count {
        let at = j as usize;
        let found = source_for(&source, target.attributes[at], missing)?;
        if let Some(i) = found {
            mappings[count as usize] = Mapping {
                source: i as u8,
                target: j,
            };
            count += 1;
        }
    }
    let made = Plan {
        source,
        target,
        mappings,
        count,
    };
    Ok(made)
}

impl Plan {
    // Every target attribute is mapped by name. The two are named as in the Rust; what they share is `plan_by_name`.
    pub fn for_layouts(source: PointLayout, target: PointLayout) -> Result<Plan, Refusal>
        ensures { outcome_of result ≡ for_layouts_answer source target }
    {
        plan_by_name(source, target, MissingSource::Refuse)
    }

    // Target attributes whose name no source attribute has are passed over.
    pub fn for_layouts_with_default(
        source: PointLayout,
        target: PointLayout,
    ) -> Result<Plan, Refusal>
        ensures { outcome_of result ≡ with_default_answer source target }
    {
        plan_by_name(source, target, MissingSource::PassOver)
    }

    pub fn sound(self) -> bool
        ensures { result ≡ is_sound_plan (plan_of self) }
    {
        if !self.source.sound() || !self.target.sound() || 32 < self.count {
            return false;
        }
        all_fit(
            &self.source,
            &self.target,
            &self.mappings[..self.count as usize],
        )
    }

    // The plan with that mapping in the place of the one onto its target, or at the end.
    pub fn set_custom_mapping(self, source_place: u8, target_place: u8) -> Result<Plan, Refusal>
        ensures { outcome_of result ≡ custom_answer self source_place target_place }
    {
        if !self.sound() {
            return Err(Refusal::Unsound);
        }
        let mapping = Mapping {
            source: source_place,
            target: target_place,
        };
        check_mapping(&self.source, &self.target, mapping)?;
        let mut plan = self;
        let count = self.count as usize;
        match place_of_target(&self.mappings[..count], target_place) {
            Some(i) => plan.mappings[i] = mapping,
            None => {
                plan.mappings[count] = mapping;
                plan.count += 1;
            }
        }
        Ok(plan)
    }
}
