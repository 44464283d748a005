// How many components are lost: the loop over one cast, called with the two codes as constants, so that LLVM makes one tight loop of each pair, and none where
// nothing can be lost. Nothing here writes. The rows are those of arms.rt: one function for both, which takes the loop as a closure, proves, but LLVM then
// leaves the costliest casts out of line, and they take several times as long. As in arms.rt, cast, source and n are no struct with its fact.
ghost use Rattle.std.specs.Prelude.{◌≡◌, ◌≤◌, ◌<◌};
ghost use Rattle.common.specs.Logic.{length};
ghost use Rattle.strided.specs.Steps.{ReadFits};
ghost use Rattle.strided.specs.Strided.{lost_points};

use super::StridedCast;
use attribute_conversion::attribute::lost_attribute;
use datatype::datatype::size_of;

// Point after point, the n of them. The codes are the cast's own.
fn count(from: u8, to: u8, cast: StridedCast, source: &[u8], n: usize) -> u64
    requires { (cast.from.code ≡ «from») × (cast.to.code ≡ to) × ReadFits cast n (length source.now) }
    ensures { result ≡ lost_points cast source.now n }
{
    let from = cast.from.with_code(from);
    let to = cast.to.with_code(to);
    let size = size_of(from) as usize;
    let mut lost = 0;
    for i in 0..n {
        let s = cast.source.base + i * cast.source.stride;
        lost += lost_attribute(from, to, &source[s..s + size]);
    }
    lost
}

// A copy loses nothing; a cast is counted by its codes.
pub(crate) fn count_pair(cast: StridedCast, source: &[u8], n: usize) -> u64
    requires { ReadFits cast n (length source.now) }
    ensures { result ≡ lost_points cast source.now n }
{
    match cast.from.code {
        code if code == cast.to.code => 0,
        0 => from_scalar::<0>(cast, source, n),
        1 => from_scalar::<1>(cast, source, n),
        2 => from_scalar::<2>(cast, source, n),
        3 => from_scalar::<3>(cast, source, n),
        4 => from_scalar::<4>(cast, source, n),
        5 => from_scalar::<5>(cast, source, n),
        6 => from_scalar::<6>(cast, source, n),
        7 => from_scalar::<7>(cast, source, n),
        8 => from_scalar::<8>(cast, source, n),
        9 => from_scalar::<9>(cast, source, n),
        10 => from_vec3::<10>(cast, source, n),
        11 => from_vec3::<11>(cast, source, n),
        12 => from_vec3::<12>(cast, source, n),
        13 => from_vec3::<13>(cast, source, n),
        14 => from_vec3::<14>(cast, source, n),
        _ => 0,
    }
}

// From a scalar to any.
fn from_scalar<const FROM: u8>(cast: StridedCast, source: &[u8], n: usize) -> u64
    requires { (FROM < 10) × (cast.from.code ≡ FROM) × ReadFits cast n (length source.now) }
    ensures { result ≡ lost_points cast source.now n }
{
    match cast.to.code {
        0 => count(FROM, 0, cast, source, n),
        1 => count(FROM, 1, cast, source, n),
        2 => count(FROM, 2, cast, source, n),
        3 => count(FROM, 3, cast, source, n),
        4 => count(FROM, 4, cast, source, n),
        5 => count(FROM, 5, cast, source, n),
        6 => count(FROM, 6, cast, source, n),
        7 => count(FROM, 7, cast, source, n),
        8 => count(FROM, 8, cast, source, n),
        _ => count(FROM, 9, cast, source, n),
    }
}

// From a Vec3 to any.
fn from_vec3<const FROM: u8>(cast: StridedCast, source: &[u8], n: usize) -> u64
    requires { (10 ≤ FROM) × (FROM < 15) × (cast.from.code ≡ FROM) × ReadFits cast n (length source.now) }
    ensures { result ≡ lost_points cast source.now n }
{
    match cast.to.code {
        10 => count(FROM, 10, cast, source, n),
        11 => count(FROM, 11, cast, source, n),
        12 => count(FROM, 12, cast, source, n),
        13 => count(FROM, 13, cast, source, n),
        _ => count(FROM, 14, cast, source, n),
    }
}
