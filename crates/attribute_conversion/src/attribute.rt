// One attribute's bytes cast into another's: a number, the three numbers of a Vec3, or a copy; and how many of them are lost.
ghost use Rattle.std.specs.Prelude.{◌≡◌, ◌≤◌, ◌<◌, ◌-◌, ◌*◌};
ghost use Rattle.common.specs.Logic.{cond, length, take};
ghost use Rattle.common.specs.Lists.{sum_below};
ghost use Rattle.datatype.specs.Datatype.{size_of};
ghost use Rattle.scalar_casts.specs.Scalars.{width_of};
ghost use Rattle.attribute_conversion.specs.Attributes.{cast_number, cast_each, cast_bytes, cast_fits, cast_codes, CodesFit, components_of, component_of};
ghost use Rattle.attribute_conversion.specs.Lost.{lost_number, lost_component, lost_in, lost_codes, cast_answer};

use super::bytes::{load, store};
use datatype::datatype::{Datatype, size_of};
use pairs::pair::has_entry;
use scalar_casts::scalar::{Scalar, cast_pattern, keeps_number, width};

// Kinds and slices stay parameters of their own here: called with literals the kinds are folded, and a struct would hold a `&mut`.

// A number of the scalar `from` as one of the scalar `to`.
fn cast_number(from: Scalar, to: Scalar, src: &[u8], dst: &mut [u8])
    requires { (length src.now ≡ width_of «from») × (length dst.old ≡ width_of to) }
    ensures { dst.new ≡ cast_number «from» to src.now }
{
    store(dst, cast_pattern(from, to, load(src)));
}

// k numbers, one after the other.
fn cast_each(k: usize, from: Scalar, to: Scalar, src: &[u8], dst: &mut [u8])
    requires { (length src.now ≡ k * width_of «from») × (length dst.old ≡ k * width_of to) }
    ensures { dst.new ≡ cast_each k «from» to src.now }
{
    let v = width(from);
    let w = width(to);
    for i in 0..k {
        let s = i * v;
        let d = i * w;
        cast_number(from, to, &src[s..s + v], &mut dst[d..d + w]);
    }
}

// How many components a code below 15 has.
fn components(code: u8) -> usize
    ensures { result ≡ components_of code }
{
    if code < 10 { 1 } else { 3 }
}

// The scalar of each component of a code below 15.
fn component(code: u8) -> Scalar
    ensures { result ≡ component_of code }
{
    match code {
        0 | 10 => Scalar::U8,
        1 => Scalar::I8,
        2 | 11 => Scalar::U16,
        3 => Scalar::I16,
        4 => Scalar::U32,
        5 | 13 => Scalar::I32,
        6 => Scalar::U64,
        7 => Scalar::I64,
        8 | 12 => Scalar::F32,
        _ => Scalar::F64,
    }
}

// A number as it is.
fn copy_number(src: &[u8], dst: &mut [u8])
    requires { (length src.now ≤ 8) × (length dst.old ≡ length src.now) }
    ensures { dst.new ≡ src.now }
{
    store(dst, load(src));
}

// From the byte i on, w bytes at a time, as long as there are as many. Answers how far it came.
fn copy_words(w: usize, i: usize, src: &[u8], dst: &mut [u8]) -> usize
    requires { (0 < w) × (w ≤ 8) × (i ≤ length src.now) × (length dst.old ≡ length src.now) × (take i dst.old ≡ take i src.now) }
    ensures reach { (result ≤ length src.now) × (length src.now - result < w) }
    ensures bytes { take result dst.new ≡ take result src.now }
{
    let words = (src.len() - i) / w;
    for k in 0..words {
        let j = i + k * w;
        copy_number(&src[j..j + w], &mut dst[j..j + w]);
    }
    i + words * w
}

// All of src over all of dst, in words of eight bytes, and what is left in shorter ones: `copy_from_slice` goes byte by byte, with a test whether the
// two overlap.
fn copy_all(src: &[u8], dst: &mut [u8])
    requires { length dst.old ≡ length src.now }
    ensures { dst.new ≡ src.now }
{
    let a = copy_words(8, 0, src, dst);
    if a < src.len() {
        let b = copy_words(4, a, src, dst);
        let c = copy_words(2, b, src, dst);
        copy_words(1, c, src, dst);
    }
}

// An attribute of the code `from` as one of the code `to`; called with literal codes it is folded to the one cast.
fn cast_into(from: u8, to: u8, src: &[u8], dst: &mut [u8])
    requires { CodesFit «from» to (length src.now) (length dst.old) }
    ensures { dst.new ≡ cast_codes «from» to src.now }
{
    if from == to {
        copy_all(src, dst);
    } else {
        cast_each(components(from), component(from), component(to), src, dst);
    }
}

// Whether a bytes of the datatype `from` can become b bytes of the datatype `to`.
#[tactic(auto, unfolding(crate::specs::Attributes::cast_fits))]
fn fits(from: Datatype, to: Datatype, a: usize, b: usize) -> bool
    ensures { result ≡ cast_fits «from» to a b }
{
    a == size_of(from) as usize && b == size_of(to) as usize && has_entry(from, to)
}

// One attribute of the datatype `from` cast into one of the datatype `to`. Answers whether it was: where the pair has no entry,
// or a slice is not its datatype's size, the target keeps its bytes. Nothing is counted.
pub fn cast_attribute_uncounted(
    from: Datatype,
    to: Datatype,
    source: &[u8],
    target: &mut [u8],
) -> bool
    ensures answer { result ≡ cast_fits «from» to (length source.now) (length target.old) }
    ensures bytes { target.new ≡ cond result (cast_bytes «from» to source.now) target.old }
{
    let fit = fits(from, to, source.len(), target.len());
    if fit {
        cast_into(from.code, to.code, source, target);
    }
    fit
}

// ---- how many components are lost

// 1 where the number of the scalar `from` is another one as the scalar `to`, else 0.
fn lost_number(from: Scalar, to: Scalar, src: &[u8]) -> u64
    requires { length src.now ≡ width_of «from» }
    ensures { result ≡ lost_number «from» to src.now }
{
    if keeps_number(from, to, load(src)) {
        0
    } else {
        1
    }
}

// Of k numbers, one after the other.
fn lost_each(k: usize, from: Scalar, to: Scalar, src: &[u8]) -> u64
    requires { (k ≤ 3) × (length src.now ≡ k * width_of «from») }
    ensures { result ≡ sum_below (lost_component «from» to src.now) k }
{
    let v = width(from);
    let mut lost = 0;
    for i in 0..k {
        let s = i * v;
        lost += lost_number(from, to, &src[s..s + v]);
    }
    lost
}

// Of an attribute of the code `from` as one of the code `to`; called with literal codes it is folded to the tests, and to 0 where nothing can be lost.
fn lost_by_codes(from: u8, to: u8, src: &[u8]) -> u64
    requires { («from» ≡ to → ⊥) → length src.now ≡ components_of «from» * width_of (component_of «from») }
    ensures { result ≡ lost_codes «from» to src.now }
{
    if from == to {
        return 0;
    }
    lost_each(components(from), component(from), component(to), src)
}

// How many components the cast of an attribute of the datatype `from` to the datatype `to` loses: 0 where the slice is not the datatype's size, or the
// pair has no entry. The tests stand here and not in `fits`: a function that two loops share is no longer folded into them.
#[tactic(auto, unfolding(crate::specs::Attributes::cast_fits))]
pub fn lost_attribute(from: Datatype, to: Datatype, source: &[u8]) -> u64
    ensures { result ≡ cond (cast_fits «from» to (length source.now) (size_of to)) (lost_in «from» to source.now) 0 }
{
    if source.len() == size_of(from) as usize && has_entry(from, to) {
        lost_by_codes(from.code, to.code, source)
    } else {
        0
    }
}

// One attribute of the datatype `from` cast into one of the datatype `to`. Answers how many components were lost; where the pair has no entry,
// or a slice is not its datatype's size, nothing, and the target keeps its bytes.
pub fn cast_attribute(from: Datatype, to: Datatype, source: &[u8], target: &mut [u8]) -> Option<u64>
    ensures answer { result ≡ cast_answer (cast_fits «from» to (length source.now) (length target.old)) (lost_in «from» to source.now) }
    ensures bytes { target.new ≡ cond (cast_fits «from» to (length source.now) (length target.old)) (cast_bytes «from» to source.now) target.old }
{
    if cast_attribute_uncounted(from, to, source, target) {
        Some(lost_attribute(from, to, source))
    } else {
        None
    }
}
