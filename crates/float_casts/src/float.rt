// The casts between the two formats of floats.
ghost use Rattle.std.specs.Prelude.{◌≡◌, ◌<◌, ◌+◌, ◌*◌, ◌^◌, ◌%◌};
ghost use Rattle.common.specs.Logic.{false};
ghost use Rattle.std.specs.Float.{binary32, binary64};
ghost use Rattle.numbers.specs.Casts.{format_of, format_bits, other, cast_nan, cast_float};
ghost use Rattle.float_casts.specs.Narrowing.{normal_in32};

use numbers::format::Format;
use numbers::integer::{low_bits, select};
use numbers::rounding::shift_round;

// What a NaN becomes in the other format: its sign, an exponent of ones, the quiet bit and the 22 payload bits below it.
#[tactic(auto, unfolding(numbers::specs::Casts::cast_nan))]
fn cast_nan(b: u64, from: Format) -> u64
    ensures { result ≡ cast_nan (format_of «from») (other (format_of «from»)) b }
{
    match from {
        Format::Binary32 => ((b >> 31) << 63) + 0x7ff8_0000_0000_0000 + (low_bits(b, 22) << 29),
        Format::Binary64 => ((b >> 63) << 31) + 0x7fc0_0000 + low_bits(b >> 29, 22),
    }
}

// Whether a binary64 lies among the normal numbers of binary32, before it is rounded; a is its pattern shifted by one, so without the sign. By an `if`:
// with `&&` the cast takes 1.4 times as long.
fn is_normal(a: u64) -> bool
    ensures { result ≡ normal_in32 a }
{
    if 0x7020_0000_0000_0000 <= a {
        return a < 0x8fe0_0000_0000_0000;
    }
    false
}

// What binary32 makes of a binary64 that is not among its normal numbers: below them the sum with 2 ^ -97 rounds to its smallest values, and
// above them is infinity; a NaN apart.
fn narrowed_rest(b: u64) -> u64
    requires { normal_in32 (b * 2 ^ 1 % 2 ^ 64) ≡ false }
    ensures { result ≡ cast_float binary64 binary32 b }
{
    let a = low_bits(b, 63);
    let small = a < 0x3810_0000_0000_0000;
    let low = f64::to_bits(f64::from_bits(select(small, a, 0)) + 6.310887241768095e-30)
        - 0x39e0_0000_0000_0000;
    let sign = Format::Binary32.sign_bit(Format::Binary64.sign_bit(true) <= b);
    select(
        a <= Format::Binary64.infinity(),
        select(small, low, Format::Binary32.infinity()) + sign,
        cast_nan(b, Format::Binary64),
    )
}

// binary64 to binary32: among the normal numbers the exponent only moves, by 896, and 29 digits are rounded away.
fn narrowed(b: u64) -> u64
    ensures { result ≡ cast_float binary64 binary32 b }
{
    if is_normal(b << 1) {
        let sign = Format::Binary32.sign_bit(Format::Binary64.sign_bit(true) <= b);
        return sign + low_bits(shift_round(b, 29) - 0xc000_0000, 32);
    }
    narrowed_rest(b)
}

// binary32 to binary64: the machine's own cast, which is exact; a NaN apart.
fn widened(b: u64) -> u64
    requires { b < 2 ^ 32 }
    ensures { result ≡ cast_float binary32 binary64 b }
{
    if Format::Binary32.infinity() < low_bits(b, 31) {
        return cast_nan(b, Format::Binary32);
    }
    f64::to_bits(f32::from_bits(b as u32) as f64)
}

// The float whose pattern is the low bits of b, as one of the other format.
pub fn float_to_float(b: u64, from: Format) -> u64
    ensures { result ≡ cast_float (format_of «from») (other (format_of «from»)) (b % 2 ^ format_bits (format_of «from»)) }
{
    match from {
        Format::Binary32 => widened(low_bits(b, 32)),
        Format::Binary64 => narrowed(b),
    }
}
