// Integers as patterns of bits, and their casts to integers and to floats. The casts of signed integers stand beside those of unsigned ones,
// since they take other steps: a sign is extended, and goes apart from the distance from 0. What both share is a function of its own.
ghost use Rattle.std.specs.Prelude.{◌≡◌, ◌≤◌, ◌<◌, ◌-◌, ◌*◌, ◌^◌, ◌%◌};
ghost use Rattle.common.specs.Logic.{cond, leb};
ghost use Rattle.std.specs.Prelude.{pos, unsigned_abs};
ghost use Rattle.std.specs.Float.Ieee.{prec, size};
ghost use Rattle.numbers.specs.Casts.{format_of, signed_of, int_to_int, int_to_float};
ghost use Rattle.numbers.specs.Widths.{bits_in};

use super::format::Format;
use super::rounding::shift_round;
use common::significant_bits;

// How many bits an integer has.
#[derive(Clone, Copy)]
pub enum Width {
    W8,
    W16,
    W32,
    W64,
}

impl Width {
    pub fn bits(self) -> u32
        ensures { result ≡ bits_in self }
    {
        match self {
            Width::W8 => 8,
            Width::W16 => 16,
            Width::W32 => 32,
            Width::W64 => 64,
        }
    }

    // Half of the patterns of the width, which is the weight of their highest bit.
    pub fn half(self) -> u64
        ensures { result ≡ 2 ^ (bits_in self - 1) }
    {
        1u64 << (self.bits() - 1)
    }

    // The largest pattern of the width, all ones.
    pub fn ones(self) -> u64
        ensures { result ≡ 2 ^ bits_in self - 1 }
    {
        self.pattern(u64::MAX)
    }

    // The low bits of x, as many as a pattern of the width has.
    pub fn pattern(self, x: u64) -> u64
        ensures { result ≡ x % 2 ^ bits_in self }
    {
        low_bits(x, self.bits())
    }
}

// The w low bits of x, which has 64.
pub fn low_bits(x: u64, w: u32) -> u64
    ensures { result ≡ x % 2 ^ w }
{
    if 64 <= w {
        return x;
    }
    x & ((1u64 << w) - 1)
}

// One of two numbers. As a call LLVM sees a select of two values that are both at hand, where an `if` around them is a branch on a point's value.
pub fn select(first: bool, a: u64, b: u64) -> u64
    ensures { result ≡ cond first a b }
{
    if first { a } else { b }
}

// The pattern in 64 bits of the signed integer whose pattern is the low bits of x: its order number among the integers of the width, moved down
// again.
fn sign_extended(x: u64, w: Width) -> u64
    ensures { result ≡ int_to_int 64 (signed_of (bits_in w) (x % 2 ^ bits_in w)) }
{
    let lifted = w.pattern(w.pattern(x).wrapping_add(w.half()));
    lifted.wrapping_sub(w.half())
}

// The low bits of x as an integer of another width.
#[tactic(auto, unfolding(crate::specs::Casts::int_to_int))]
pub fn unsigned_to_integer(x: u64, from: Width, to: Width) -> u64
    ensures { result ≡ int_to_int (bits_in to) (pos (x % 2 ^ bits_in «from»)) }
{
    to.pattern(from.pattern(x))
}

// The integer whose pattern is the low bits of x, as one of another width.
pub fn signed_to_integer(x: u64, from: Width, to: Width) -> u64
    ensures { result ≡ int_to_int (bits_in to) (signed_of (bits_in «from») (x % 2 ^ bits_in «from»)) }
{
    to.pattern(sign_extended(x, from))
}

// An integer that has no more digits than the format: the machine's own conversion, which is exact.
fn exact(n: i64, format: Format) -> u64
    requires { unsigned_abs n ≤ 2 ^ prec (format_of format) }
    ensures { result ≡ int_to_float (format_of format) n }
{
    match format {
        Format::Binary32 => f32::to_bits(n as f32) as u64,
        Format::Binary64 => f64::to_bits(n as f64),
    }
}

// x with its leading digit at the top of 64 bits; k is how many digits it has. 0 has none, and stays 0.
fn normalized(x: u64, k: u32) -> u64
    requires { k ≡ size x }
    ensures { result ≡ x * 2 ^ (64 - size x) }
{
    x << ((64 - k) & 63)
}

// An integer of any number of digits, rounded once. How many it has gives the exponent; those below the leading one are brought to the top and
// rounded to as many as the format has, by one shift, and a carry out of them counts the exponent up. 0, which has no leading digit, is told by
// a select, so that no branch hangs on a value.
fn unsigned_rounded(x: u64, format: Format) -> u64
    ensures { result ≡ int_to_float (format_of format) (pos x) }
{
    let p = format.precision();
    let k = significant_bits(x);
    let exponent = format.bias() + (k as u64) - 1;
    let digits = shift_round(normalized(x, k), 64 - p);
    select(x == 0, 0, (exponent << (p - 1)) + digits)
}

// The low bits of x as a float.
pub fn unsigned_to_float(x: u64, w: Width, format: Format) -> u64
    ensures { result ≡ int_to_float (format_of format) (pos (x % 2 ^ bits_in w)) }
{
    let y = w.pattern(x);
    if w.bits() <= format.precision() {
        return exact(y as i64, format);
    }
    unsigned_rounded(y, format)
}

// The distance from 0 of the integer whose pattern in 64 bits is y.
pub fn distance(y: u64) -> u64
    ensures { result ≡ cond (leb (2 ^ 63) y) (2 ^ 64 - y) y }
{
    y.cast_signed().unsigned_abs()
}

// The integer whose pattern in 64 bits is y, rounded once: the sign apart from the distance, so that no branch hangs on it.
fn signed_rounded(y: u64, format: Format) -> u64
    ensures { result ≡ int_to_float (format_of format) (signed_of 64 y) }
{
    let negative = 0x8000_0000_0000_0000 <= y;
    format.sign_bit(negative) + unsigned_rounded(distance(y), format)
}

// The integer whose pattern is the low bits of x, as a float.
pub fn signed_to_float(x: u64, w: Width, format: Format) -> u64
    ensures { result ≡ int_to_float (format_of format) (signed_of (bits_in w) (x % 2 ^ bits_in w)) }
{
    let y = sign_extended(x, w);
    if w.bits() <= format.precision() {
        return exact(y.cast_signed(), format);
    }
    signed_rounded(y, format)
}
