// One attribute of each of many points, cast from a source into a target. Point i's attribute begins at base + i * stride, so interleaved
// points and columns differ only in how base and stride are made. The pair of datatypes is looked at once, not for each point.
#![tactic(auto)]

ghost use Rattle.std.specs.Prelude.{◌≡◌, ◌∷◌};
ghost use Rattle.common.specs.Logic.{true, cond, [], length};
ghost use Rattle.strided.specs.Strided.{within, strided_fits, converted, lost_points};
ghost use Rattle.attribute_conversion.specs.Lost.{cast_answer};
ghost use Rattle.strided.specs.Steps.{stored, is_gapless, RunFits};

use datatype::datatype::{Datatype, same_datatype, size_of};
use pairs::pair::has_entry;
use writes::Strided;

mod arms;
mod lost;

// An attribute of the datatype `from` in the source, and one of the datatype `to` in the target.
#[derive(Clone, Copy)]
pub struct StridedCast {
    pub from: Datatype,
    pub to: Datatype,
    pub source: Strided,
    pub target: Strided,
}

// Whether the datatypes are equal and the attributes lie one after another on both sides, without a gap.
#[tactic(auto, unfolding(crate::specs::Steps::is_gapless))]
fn is_gapless(cast: StridedCast) -> bool
    ensures { result ≡ is_gapless cast }
{
    let size = size_of(cast.from) as usize;
    same_datatype(cast.from, cast.to) && cast.source.stride == size && cast.target.stride == size
}

// Such attributes of all points are copied at once.
fn copy_gapless(cast: StridedCast, source: &[u8], target: &mut [u8], n: usize)
    requires { (is_gapless cast ≡ true) × RunFits cast n (length source.now) (length target.old) }
    ensures { target.new ≡ stored cast source.now n target.old }
{
    if n == 0 {
        return;
    }
    let a = cast.source.base;
    let b = cast.target.base;
    let whole = n * cast.source.stride;
    target[b..b + whole].copy_from_slice(&source[a..a + whole]);
}

// Whether the size bytes of each of n points lie within len bytes.
fn lies_within(at: Strided, size: usize, n: usize, len: usize) -> bool
    ensures { result ≡ within at size n len }
{
    if n == 0 {
        return true;
    }
    if len < size || len - size < at.base {
        return false;
    }
    at.stride == 0 || n - 1 <= (len - size - at.base) / at.stride
}

#[tactic(auto, unfolding(crate::specs::Strided::strided_fits))]
fn cast_fits(cast: StridedCast, n: usize, a: usize, b: usize) -> bool
    ensures { result ≡ strided_fits cast n a b }
{
    let width = size_of(cast.to) as usize;
    width <= cast.target.stride
        && lies_within(cast.source, size_of(cast.from) as usize, n, a)
        && lies_within(cast.target, width, n, b)
        && has_entry(cast.from, cast.to)
}

// The attribute of each of n points cast from the source into the target. Answers whether it was: where the pair is neither copy nor cast,
// an attribute passes the end of its bytes, or those of the target's points overlap, the target keeps its bytes. Nothing is counted.
pub fn cast_strided_uncounted(cast: StridedCast, n: usize, source: &[u8], target: &mut [u8]) -> bool
    ensures answer { result ≡ strided_fits cast n (length source.now) (length target.old) }
    ensures bytes { target.new ≡ cond result (converted (cast ∷ []) source.now n target.old) target.old }
{
    if !cast_fits(cast, n, source.len(), target.len()) {
        return false;
    }
    if is_gapless(cast) {
        copy_gapless(cast, source, target, n);
    } else {
        arms::run_pair(cast, source, target, n);
    }
    true
}

// The same, and how many components were lost; nothing where the target keeps its bytes.
pub fn cast_strided(cast: StridedCast, n: u32, source: &[u8], target: &mut [u8]) -> Option<u64>
    ensures answer { result ≡ cast_answer (strided_fits cast n (length source.now) (length target.old)) (lost_points cast source.now n) }
    ensures bytes { target.new ≡ cond (strided_fits cast n (length source.now) (length target.old)) (converted (cast ∷ []) source.now n target.old) target.old }
{
    if cast_strided_uncounted(cast, n as usize, source, target) {
        Some(lost::count_pair(cast, source, n as usize))
    } else {
        None
    }
}
