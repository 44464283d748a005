// Floats to floats: binary64 to binary32 is kept where the digits that binary32 has no room for are 0; nothing else loses a number.
ghost use Rattle.std.specs.Prelude.{◌≡◌, ◌^◌, ◌%◌};
ghost use Rattle.std.specs.Float.{binary32, binary64};
ghost use Rattle.numbers.specs.Casts.{float, format_of, format_bits};
ghost use Rattle.kept_casts.specs.Kept.{is_kept};

use numbers::format::Format;
use numbers::integer::{low_bits, select};

// x is the exponent's field. Among the normal numbers of binary32, from field 897 to 1150, 29 digits are too many: the one branch. Among its
// smallest values it is one more for each field below, and further down all; a shift takes those that stay away. Further up only the
// infinities and the NaNs are kept.
fn narrow_kept(b: u64) -> bool
    ensures { result ≡ is_kept (float binary64) (float binary32) b }
{
    let a = low_bits(b, 63);
    let x = a >> 52;
    if x.wrapping_sub(897) < 254 {
        return low_bits(a, 29) == 0;
    }
    let shift = select(x < 874, 1, x.wrapping_sub(862) & 63);
    (0x7ff0_0000_0000_0000 <= a) | ((x < 897) & (a << shift == 0))
}

pub(crate) fn float_to_float_kept(x: u64, from: Format, to: Format) -> bool
    ensures { result ≡ is_kept (float (format_of «from»)) (float (format_of to)) (x % 2 ^ format_bits (format_of «from»)) }
{
    match (from, to) {
        (Format::Binary64, Format::Binary32) => narrow_kept(x),
        _ => true,
    }
}
