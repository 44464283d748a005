// The loop over one cast, called with the two codes as constants, so that LLVM makes one tight loop of each pair.
ghost use Rattle.std.specs.Prelude.{◌≡◌, ◌≤◌, ◌<◌};
ghost use Rattle.common.specs.Logic.{length};
ghost use Rattle.strided.specs.Steps.{stored, RunFits};

use super::StridedCast;
use attribute_conversion::attribute::cast_attribute_uncounted;
use datatype::datatype::{Datatype, size_of};

// Point after point, the n of them. The codes are the cast's own; called with constants, all that hangs on them is folded. The cast, the
// slices and n are no struct with `RunFits` as a ghost field: a clause would name the bytes that the target ends with `run.exit.1.1.0.now`.
fn run(from: u8, to: u8, cast: StridedCast, source: &[u8], target: &mut [u8], n: usize)
    requires { (cast.from.code ≡ «from») × (cast.to.code ≡ to) × RunFits cast n (length source.now) (length target.old) }
    ensures { target.new ≡ stored cast source.now n target.old }
{
    let from = cast.from.with_code(from);
    let to = cast.to.with_code(to);
    let length = size_of(from) as usize;
    let width = size_of(to) as usize;
    for i in 0..n {
        let s = cast.source.base + i * cast.source.stride;
        let d = cast.target.base + i * cast.target.stride;
        cast_attribute_uncounted(from, to, &source[s..s + length], &mut target[d..d + width]);
    }
}

pub(crate) fn run_pair(cast: StridedCast, source: &[u8], target: &mut [u8], n: usize)
    requires { RunFits cast n (length source.now) (length target.old) }
    ensures { target.new ≡ stored cast source.now n target.old }
{
    match cast.from.code {
        0 => from_scalar::<0>(cast, source, target, n),
        1 => from_scalar::<1>(cast, source, target, n),
        2 => from_scalar::<2>(cast, source, target, n),
        3 => from_scalar::<3>(cast, source, target, n),
        4 => from_scalar::<4>(cast, source, target, n),
        5 => from_scalar::<5>(cast, source, target, n),
        6 => from_scalar::<6>(cast, source, target, n),
        7 => from_scalar::<7>(cast, source, target, n),
        8 => from_scalar::<8>(cast, source, target, n),
        9 => from_scalar::<9>(cast, source, target, n),
        10 => from_vec3::<10>(cast, source, target, n),
        11 => from_vec3::<11>(cast, source, target, n),
        12 => from_vec3::<12>(cast, source, target, n),
        13 => from_vec3::<13>(cast, source, target, n),
        14 => from_vec3::<14>(cast, source, target, n),
        15 => run(15, 15, cast, source, target, n),
        16 => copy_bytes::<16>(cast, source, target, n),
        _ => copy_bytes::<17>(cast, source, target, n),
    }
}

// From a scalar to any. A function of its own for each code: where LLVM has all loops in one, it spills registers within them.
#[inline(never)]
fn from_scalar<const FROM: u8>(cast: StridedCast, source: &[u8], target: &mut [u8], n: usize)
    requires { (FROM < 10) × (cast.from.code ≡ FROM) × RunFits cast n (length source.now) (length target.old) }
    ensures { target.new ≡ stored cast source.now n target.old }
{
    match cast.to.code {
        0 => run(FROM, 0, cast, source, target, n),
        1 => run(FROM, 1, cast, source, target, n),
        2 => run(FROM, 2, cast, source, target, n),
        3 => run(FROM, 3, cast, source, target, n),
        4 => run(FROM, 4, cast, source, target, n),
        5 => run(FROM, 5, cast, source, target, n),
        6 => run(FROM, 6, cast, source, target, n),
        7 => run(FROM, 7, cast, source, target, n),
        8 => run(FROM, 8, cast, source, target, n),
        _ => run(FROM, 9, cast, source, target, n),
    }
}

// From a Vec3 to any.
#[inline(never)]
fn from_vec3<const FROM: u8>(cast: StridedCast, source: &[u8], target: &mut [u8], n: usize)
    requires { (10 ≤ FROM) × (FROM < 15) × (cast.from.code ≡ FROM) × RunFits cast n (length source.now) (length target.old) }
    ensures { target.new ≡ stored cast source.now n target.old }
{
    match cast.to.code {
        10 => run(FROM, 10, cast, source, target, n),
        11 => run(FROM, 11, cast, source, target, n),
        12 => run(FROM, 12, cast, source, target, n),
        13 => run(FROM, 13, cast, source, target, n),
        _ => run(FROM, 14, cast, source, target, n),
    }
}

// The cast itself, with its size as a number of its own.
fn with_size(cast: StridedCast, size: u16) -> StridedCast
    requires { cast.from.n ≡ size }
    ensures { result ≡ cast }
{
    StridedCast {
        from: Datatype {
            n: size,
            ..cast.from
        },
        ..cast
    }
}

// Of a ByteArray or a Custom. One to three bytes are called with their number as a constant: a loop of their own, without what longer ones ask.
fn copy_bytes<const CODE: u8>(cast: StridedCast, source: &[u8], target: &mut [u8], n: usize)
    requires { (cast.from.code ≡ CODE) × (cast.to.code ≡ CODE) × RunFits cast n (length source.now) (length target.old) }
    ensures { target.new ≡ stored cast source.now n target.old }
{
    match cast.from.n {
        1 => run(CODE, CODE, with_size(cast, 1), source, target, n),
        2 => run(CODE, CODE, with_size(cast, 2), source, target, n),
        3 => run(CODE, CODE, with_size(cast, 3), source, target, n),
        _ => run(CODE, CODE, cast, source, target, n),
    }
}
