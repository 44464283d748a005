// Floats to integers: kept where the float is a whole number in the target's range. `|` and `&` in place of `||` and `&&`, so that no branch
// hangs on the value.
ghost use Rattle.std.specs.Prelude.{◌≡◌, ◌+◌, ◌*◌, ◌^◌, ◌%◌, ◌<◌, ◌≤◌};
ghost use Rattle.std.specs.Float.Ieee.{emax, hid, top};
ghost use Rattle.numbers.specs.Casts.{unsigned, signed, float, format_of, format_bits};
ghost use Rattle.numbers.specs.Widths.{bits_in};
ghost use Rattle.kept_casts.specs.Kept.{is_kept};
ghost use Rattle.kept_casts.specs.Steps.{Tells, Below};

use numbers::format::Format;
use numbers::integer::{Width, low_bits};

// The float whose pattern without its sign is a is a whole number below 2 ^ v. d is how far its exponent lies above that of 1; below 1
// the difference wraps and is more than any v. The digits after the point are what is left of the field when a is shifted by d.
fn whole_below(a: u64, format: Format, v: u32) -> bool
    requires { v ≤ 64 }
    ensures { Tells result (Below (format_of format) a v) }
{
    let p = format.precision() - 1;
    let d = a.wrapping_sub(format.power_of_two(0)) >> p;
    (a == 0) | ((d < (v as u64)) & (low_bits(a << (d & 63), p) == 0))
}

// The pattern of -2 ^ v.
fn lowest(format: Format, v: u32) -> u64
    requires { v < 64 }
    ensures { result ≡ top (format_of format) + (emax (format_of format) + v) * hid (format_of format) }
{
    format.sign_bit(true) + format.power_of_two(v)
}

// A float below 0 is kept only as 0.
pub(crate) fn float_to_unsigned_kept(x: u64, from: Format, to: Width) -> bool
    ensures { result ≡ is_kept (float (format_of «from»)) (unsigned (bits_in to)) (x % 2 ^ format_bits (format_of «from»)) }
{
    let b = from.pattern(x);
    let a = low_bits(b, from.sign_place());
    whole_below(a, from, to.bits()) & ((b < from.sign_bit(true)) | (a == 0))
}

// The lowest integer is one further from 0 than the highest.
pub(crate) fn float_to_signed_kept(x: u64, from: Format, to: Width) -> bool
    ensures { result ≡ is_kept (float (format_of «from»)) (signed (bits_in to)) (x % 2 ^ format_bits (format_of «from»)) }
{
    let b = from.pattern(x);
    let a = low_bits(b, from.sign_place());
    let v = to.bits() - 1;
    whole_below(a, from, v) | (b == lowest(from, v))
}
