// Integers to integers: kept where the target has the number.
ghost use Rattle.std.specs.Prelude.{◌≡◌, ◌^◌, ◌%◌};
ghost use Rattle.common.specs.Logic.{ltb};
ghost use Rattle.numbers.specs.Casts.{unsigned, signed};
ghost use Rattle.numbers.specs.Widths.{bits_in};
ghost use Rattle.kept_casts.specs.Kept.{is_kept};

use numbers::integer::{Width, low_bits};

// x has no more than w digits.
fn is_below(x: u64, w: u32) -> bool
    ensures { result ≡ ltb x (2 ^ w) }
{
    low_bits(x, w) == x
}

// A pattern and its widths are three plain values, which nothing ties together.
pub(crate) fn unsigned_to_unsigned_kept(x: u64, from: Width, to: Width) -> bool
    ensures { result ≡ is_kept (unsigned (bits_in «from»)) (unsigned (bits_in to)) (x % 2 ^ bits_in «from») }
{
    is_below(from.pattern(x), to.bits())
}

// The target's highest bit is its sign.
pub(crate) fn unsigned_to_signed_kept(x: u64, from: Width, to: Width) -> bool
    ensures { result ≡ is_kept (unsigned (bits_in «from»)) (signed (bits_in to)) (x % 2 ^ bits_in «from») }
{
    is_below(from.pattern(x), to.bits() - 1)
}

// No negative number is kept.
pub(crate) fn signed_to_unsigned_kept(x: u64, from: Width, to: Width) -> bool
    ensures { result ≡ is_kept (signed (bits_in «from»)) (unsigned (bits_in to)) (x % 2 ^ bits_in «from») }
{
    is_below(from.pattern(x), to.bits().min(from.bits() - 1))
}

// The source's number, moved up by half of the target's numbers, is among as many as the target has.
pub(crate) fn signed_to_signed_kept(x: u64, from: Width, to: Width) -> bool
    ensures { result ≡ is_kept (signed (bits_in «from»)) (signed (bits_in to)) (x % 2 ^ bits_in «from») }
{
    if from.bits() <= to.bits() {
        return true;
    }
    is_below(
        from.pattern(from.pattern(x).wrapping_add(to.half())),
        to.bits(),
    )
}
