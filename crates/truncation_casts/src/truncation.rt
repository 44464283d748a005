// Floats cut to whole numbers, towards zero, and held within the integers of a width. By selects alone, since a branch that hangs on a
// point's value costs more than the cast. Both kinds of integers share `whole_part`, and differ in what they do with the sign.
ghost use Rattle.std.specs.Prelude.{◌≡◌, ◌≤◌, ◌<◌, ◌+◌, ◌-◌, ◌*◌, ◌^◌, ◌%◌, ◌/◌};
ghost use Rattle.common.specs.Logic.{Bool, cond, ℕ, min, eqb, leb};
ghost use Rattle.std.specs.Prelude.{pos, neg_ℤ, from_bits};
ghost use Rattle.std.specs.Float.Ieee.{prec, emax, hid, top, to_unsigned};
ghost use Rattle.numbers.specs.Casts.{format_of, format_bits, pattern_of, float_to_signed};
ghost use Rattle.numbers.specs.Widths.{bits_in};
ghost use Rattle.truncation_casts.specs.Truncation.{Truncated, held_of, whole_of};

use numbers::format::Format;
use numbers::integer::{Width, low_bits, select};

// The number that a float's distance from 0 is held at: 2 ^ digits, or one less.
#[derive(Clone, Copy)]
struct Most {
    digits: u32,
    number: u64,
    ghost bounds: { (digits ≤ 64) × (2 ^ digits - 1 ≤ number) × (number ≤ 2 ^ digits) },
}

// The digits below the leading one.
fn digits(b: u64, format: Format) -> u64
    ensures { result ≡ b % hid (format_of format) }
{
    low_bits(b, format.precision() - 1)
}

// The significand with its leading digit at the top of 64 bits, shifted down to the whole part of a float from 2 ^ d to below 2 ^ (d + 1).
fn shifted(t: u64, d: u64, format: Format) -> u64
    requires { t < hid (format_of format) }
    ensures { result ≡ (hid (format_of format) + t) * 2 ^ (64 - prec (format_of format)) / 2 ^ (63 - d % 64) }
{
    let p = format.precision();
    (((1u64 << (p - 1)) + t) << (64 - p)) >> (63 - (d & 63))
}

// A pattern and its format stay two values: any pattern goes with either.

// The whole part by one shift. e is how far the pattern lies above that of 1, counted round through 64 bits: at most as far as infinity for
// a float from 1 on, and further for all other patterns.
fn shift_part(a: u64, format: Format, most: Most) -> u64
    ensures { (s : Bool) (n : ℕ) → Truncated (from_bits (format_of format) a) s n → result ≡ cond (leb (top (format_of format)) a) 0 (min n most.number) }
{
    let one = format.power_of_two(0);
    let e = a.wrapping_sub(one);
    let d = e >> (format.precision() - 1);
    let past = select(e <= format.infinity() - one, most.number, 0);
    select(
        d < (most.digits as u64),
        shifted(digits(a, format), d, format),
        past,
    )
}

// The pattern of 1/4.
fn quarter(format: Format) -> u64
    ensures { result ≡ (emax (format_of format) - 2) * hid (format_of format) }
{
    match format {
        Format::Binary32 => 0x3e80_0000,
        Format::Binary64 => 0x3fd0_0000_0000_0000,
    }
}

// A pattern held between those of 1/4 and of `high`; what is no float from 1/4 on, a NaN and a pattern with its sign among them, is 1/4.
fn held(a: u64, high: u64, format: Format) -> u64
    ensures { result ≡ held_of (format_of format) high a }
{
    let low = quarter(format);
    select(
        a.wrapping_sub(low) <= format.infinity() - low,
        a.min(high),
        low,
    )
}

// A float from 1/4 on, moved to where the format's last digit is 1/2, by the sum with 2 ^ (p - 2) - 1/4, p being its precision. The fourth
// that is missing makes the sum round to the whole part or to a half above it, so that the digits above the last are the whole part.
fn in_halves(c: u64, format: Format) -> u64
    requires { ((emax (format_of format) - 2) * hid (format_of format) ≤ c) × (c ≤ (emax (format_of format) + (prec (format_of format) - 8)) * hid (format_of format)) }
    ensures { result / 2 % 2 ^ (prec (format_of format) - 2) ≡ whole_of (format_of format) c }
{
    match format {
        Format::Binary32 => f32::to_bits(f32::from_bits(c as u32) + 4194303.75) as u64,
        Format::Binary64 => f64::to_bits(f64::from_bits(c) + 2251799813685247.75),
    }
}

// The whole part by one sum, where the format has digits to spare. The largest pattern is that of 2 ^ v, or the one before.
fn sum_part(a: u64, format: Format, most: Most) -> u64
    requires { most.digits + 8 ≤ prec (format_of format) }
    ensures { (s : Bool) (n : ℕ) → Truncated (from_bits (format_of format) a) s n → result ≡ cond (leb (top (format_of format)) a) 0 (min n most.number) }
{
    let v = most.digits;
    let high = format.power_of_two(v) - (1u64 << v) + most.number;
    low_bits(in_halves(held(a, high, format), format) >> 1, v + 1)
}

// A float's distance from 0, cut to a whole number and held at `most`; 0 for a NaN, and where the sign is set.
fn whole_part(a: u64, format: Format, most: Most) -> u64
    ensures { (s : Bool) (n : ℕ) → Truncated (from_bits (format_of format) a) s n → result ≡ cond (leb (top (format_of format)) a) 0 (min n most.number) }
{
    if most.digits + 8 <= format.precision() {
        return sum_part(a, format, most);
    }
    shift_part(a, format, most)
}

// The pattern in the width of n, or of -n where s is 1.
fn with_sign(s: u64, n: u64, w: Width) -> u64
    requires { (n ≤ 2 ^ (bits_in w - 1)) × (s ≤ 1) }
    ensures { result ≡ pattern_of (bits_in w) (cond (eqb s 1) (neg_ℤ (pos n)) (pos n)) }
{
    w.pattern(select(s == 1, w.ones() - n, n).wrapping_add(s))
}

// The float whose pattern is the low bits of b, as an unsigned integer.
pub fn float_to_unsigned(b: u64, format: Format, w: Width) -> u64
    ensures { result ≡ to_unsigned (bits_in w) (from_bits (format_of format) (b % 2 ^ format_bits (format_of format))) }
{
    let most = Most {
        digits: w.bits(),
        number: w.ones(),
    };
    whole_part(format.pattern(b), format, most)
}

// The float whose pattern is the low bits of b, as the pattern of a signed integer. The lowest integer is one further from 0 than the highest.
pub fn float_to_signed(b: u64, format: Format, w: Width) -> u64
    ensures { result ≡ float_to_signed (bits_in w) (from_bits (format_of format) (b % 2 ^ format_bits (format_of format))) }
{
    let y = format.pattern(b);
    let place = format.sign_place();
    let s = y >> place;
    let most = Most {
        digits: w.bits() - 1,
        number: w.half() - 1 + s,
    };
    with_sign(s, whole_part(low_bits(y, place), format, most), w)
}
