// Integers to floats: kept where the digits from the first set one to the last are no more than the format keeps.
ghost use Rattle.std.specs.Prelude.{◌≡◌, ◌^◌, ◌%◌, ◌<◌, ◌≤◌};
ghost use Rattle.std.specs.Float.Ieee.{prec};
ghost use Rattle.numbers.specs.Casts.{unsigned, signed, float, format_of};
ghost use Rattle.numbers.specs.Widths.{bits_in};
ghost use Rattle.kept_casts.specs.Kept.{is_kept};
ghost use Rattle.kept_casts.specs.Steps.{Tells, Short};

use numbers::format::Format;
use numbers::integer::{Width, distance, signed_to_integer};

// No more than p digits from the first set one to the last: n | (0 - n) has ones from n's last set digit on.
fn few_digits(n: u64, p: u32) -> bool
    requires { p < 64 }
    ensures { Tells result (Short p n) }
{
    (n >> p) & (n | n.wrapping_neg()) == 0
}

// The format has the digits of n, the distance from 0 of an integer of the width.
fn digits_kept(n: u64, w: Width, format: Format) -> bool
    requires { n ≤ 2 ^ bits_in w }
    ensures { Tells result (Short (prec (format_of format)) n) }
{
    let p = format.precision();
    if w.bits() <= p {
        return true;
    }
    few_digits(n, p)
}

pub(crate) fn unsigned_to_float_kept(x: u64, from: Width, to: Format) -> bool
    ensures { result ≡ is_kept (unsigned (bits_in «from»)) (float (format_of to)) (x % 2 ^ bits_in «from») }
{
    digits_kept(from.pattern(x), from, to)
}

pub(crate) fn signed_to_float_kept(x: u64, from: Width, to: Format) -> bool
    ensures { result ≡ is_kept (signed (bits_in «from»)) (float (format_of to)) (x % 2 ^ bits_in «from») }
{
    digits_kept(distance(signed_to_integer(x, from, Width::W64)), from, to)
}
