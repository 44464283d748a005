// One point converted from one layout to another (attribute_conversion.rs): same-named attributes of unequal datatype are cast.
#![tactic(auto)]

ghost use Rattle.std.specs.Prelude.{◌≡◌, ◌∷◌, ◌++◌, ◌≤◌, ◌<◌, ◌+◌};
ghost use Rattle.std.specs.Option.{option_to_list};
ghost use Rattle.common.specs.Logic.{true, [], leb, length};
ghost use Rattle.common.specs.Lists.{all};
ghost use Rattle.common.specs.Refusal.{answer_of, answered, left_by};
ghost use Rattle.datatype.specs.Datatype.{size_of};
ghost use Rattle.layout.specs.Layout.{good_attribute, is_sound};
ghost use Rattle.layout.specs.Records.{attribute_of, layout_of};
ghost use Rattle.strided.specs.Steps.{CastsFit};
ghost use Rattle.strided.specs.Strided.{converted};
ghost use Rattle.raw_point_converter.specs.Convert.{convert_point};
ghost use Rattle.raw_point_converter.specs.Pairs.{single, pair_of_two, pair_for, pairs, has_cast, ends_within};
ghost use Rattle.raw_point_converter.specs.Steps.{held, Holds};

use common::Refusal;
use datatype::datatype::{Datatype, same_datatype, size_of};
use layout::point_layout::{PointAttributeMember, PointLayout};
use pairs::pair::has_entry;
use strided::{StridedCast, cast_strided_uncounted};
use writes::Strided;

// ---- one pair

// The attribute of a single point: no other point follows at the stride.
#[tactic(auto, unfolding(crate::specs::Pairs::single, layout::specs::Records::attribute_of, layout::specs::Records::definition_of))]
fn single_of(m: PointAttributeMember) -> Strided
    ensures { result ≡ single (attribute_of m) }
{
    Strided {
        base: m.offset as usize,
        stride: size_of(m.attribute_definition.datatype) as usize,
    }
}

// An attribute of the source, and the one of the same name in the target.
#[tactic(auto, unfolding(crate::specs::Pairs::pair_of_two, layout::specs::Records::attribute_of, layout::specs::Records::definition_of))]
fn pair_of_two(a: PointAttributeMember, b: PointAttributeMember) -> StridedCast
    ensures { result ≡ pair_of_two (attribute_of a) (attribute_of b) }
{
    StridedCast {
        from: a.attribute_definition.datatype,
        to: b.attribute_definition.datatype,
        source: single_of(a),
        target: single_of(b),
    }
}

// The pair of a source attribute, if the target has one of its name and of another datatype. The target is sound and the name good, so the
// lookup is never refused.
fn pair_for(source: PointAttributeMember, to_layout: &PointLayout) -> Option<StridedCast>
    requires { (is_sound (layout_of to_layout.now) ≡ true) × (good_attribute (attribute_of source) ≡ true) }
    ensures { option_to_list result ≡ pair_for (layout_of to_layout.now).attributes (attribute_of source) }
{
    let definition = source.attribute_definition;
    let Ok(found) = to_layout.get_attribute_by_name(definition.name_bytes()) else {
        return None;
    };
    let j = found?;
    let target = to_layout.attributes[j];
    if same_datatype(definition.datatype, target.attribute_definition.datatype) {
        return None;
    }
    Some(pair_of_two(source, target))
}

// The attribute's end does not pass len.
fn ends_within(at: Strided, datatype: Datatype, len: usize) -> bool
    ensures { result ≡ leb (at.base + size_of datatype) len }
{
    let size = size_of(datatype) as usize;
    size <= len && at.base <= len - size
}

// A source point of a bytes and a target point of b do not end before the ends of the pair's attributes.
#[tactic(auto, unfolding(crate::specs::Pairs::ends_within))]
fn pair_within(pair: StridedCast, a: usize, b: usize) -> bool
    ensures { result ≡ ends_within a b pair }
{
    ends_within(pair.source, pair.from, a) && ends_within(pair.target, pair.to, b)
}

// ---- all pairs

// The first count pairs are listed, the others are not looked at: without heap an array and a count.
#[derive(Clone, Copy)]
struct RawPointConverter {
    attribute_converters: [StridedCast; 32],
    count: u8,
}

impl RawPointConverter {
    fn empty() -> Self
        ensures { (result.count ≡ 0) × (length result.attribute_converters ≡ 32) }
    {
        let d = Datatype::plain(0);
        let s = Strided { base: 0, stride: 0 };
        let attribute_converters = [StridedCast {
            from: d,
            to: d,
            source: s,
            target: s,
        }; 32];
        RawPointConverter {
            attribute_converters,
            count: 0,
        }
    }

    // One pair more.
    fn push(&mut self, pair: StridedCast)
        requires { (self.old.count < 32) × (length self.old.attribute_converters ≡ 32) }
        ensures { Holds (held self.old ++ (pair ∷ [])) (self.old.count + 1) self.new }
    {
        self.attribute_converters[self.count as usize] = pair;
        self.count += 1;
    }

    // The pairs of two layouts, source attribute after source attribute.
    fn from_to(from_layout: &PointLayout, to_layout: &PointLayout) -> Self
        requires { (is_sound (layout_of from_layout.now) ≡ true) × (is_sound (layout_of to_layout.now) ≡ true) }
        ensures { Holds (pairs (layout_of from_layout.now) (layout_of to_layout.now)) from_layout.now.count result }
    {
        let mut made = RawPointConverter::empty();
        // by index: over the slice of them the proof did not close, for want of the array's length
        for i in 0..from_layout.count as usize {
            if let Some(pair) = pair_for(from_layout.attributes[i], to_layout) {
                made.push(pair);
            }
        }
        made
    }

    // Those that are listed. What is asked of the two fields, that the count is within the array, `Holds` gives of each converter that is made.
    fn pairs(&self) -> &[StridedCast]
        requires { (self.now.count ≤ 32) × (length self.now.attribute_converters ≡ 32) }
        ensures { result.now ≡ held self.now }
    {
        &self.attribute_converters[..self.count as usize]
    }
}

fn have_casts(pairs: &[StridedCast]) -> bool
    ensures { result ≡ all has_cast pairs.now }
{
    pairs.iter().all(|pair| has_entry(pair.from, pair.to))
}

fn all_within(pairs: &[StridedCast], a: usize, b: usize) -> bool
    ensures { result ≡ all (ends_within a b) pairs.now }
{
    pairs.iter().all(|pair| pair_within(*pair, a, b))
}

// Each pair's cast, one after the other.
fn convert(pairs: &[StridedCast], source: &[u8], target: &mut [u8])
    requires { CastsFit pairs.now 1 (length source.now) (length target.old) }
    ensures { target.new ≡ converted pairs.now source.now 1 target.old }
{
    for pair in pairs {
        cast_strided_uncounted(*pair, 1, source, target);
    }
}

// ---- the call

// The source point's attributes cast into the target point's of the same name, where the datatypes are not equal; all other bytes of the target stay.
pub fn convert_point(
    source_layout: PointLayout,
    target_layout: PointLayout,
    source: &[u8],
    target: &mut [u8],
) -> Result<(), Refusal>
    ensures answer { answered result ≡ answer_of (convert_point (layout_of source_layout) (layout_of target_layout) source.now target.old) }
    ensures bytes { target.new ≡ left_by target.old (convert_point (layout_of source_layout) (layout_of target_layout) source.now target.old) }
{
    if !source_layout.sound() || !target_layout.sound() {
        return Err(Refusal::Unsound);
    }
    let converter = RawPointConverter::from_to(&source_layout, &target_layout);
    let pairs = converter.pairs();
    if !have_casts(pairs) {
        return Err(Refusal::NoCast);
    }
    if !all_within(pairs, source.len(), target.len()) {
        return Err(Refusal::PointLength);
    }
    convert(pairs, source, target);
    Ok(())
}
