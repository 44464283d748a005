// Document 02, point 8: whether a cast keeps the number.
#![tactic(auto)]

ghost use Rattle.std.specs.Prelude.{◌≡◌, ◌^◌, ◌%◌};
ghost use Rattle.numbers.specs.Casts.{kind_bits};
ghost use Rattle.numbers.specs.Kinds.{kind_in};
ghost use Rattle.kept_casts.specs.Kept.{is_kept};

use digits::{signed_to_float_kept, unsigned_to_float_kept};
use integer::{
    signed_to_signed_kept, signed_to_unsigned_kept, unsigned_to_signed_kept,
    unsigned_to_unsigned_kept,
};
use narrowing::float_to_float_kept;
use numbers::kind::Kind;
use whole::{float_to_signed_kept, float_to_unsigned_kept};

mod digits;
mod integer;
mod narrowing;
mod whole;

// Whether the cast of the low bits of x, a pattern of the kind `from`, to the kind `to` is the same number. With literal kinds it is folded to
// one test, and to true where nothing can be lost. Each two kinds have a test of their own.
pub fn keeps(from: Kind, to: Kind, x: u64) -> bool
    ensures { result ≡ is_kept (kind_in «from») (kind_in to) (x % 2 ^ kind_bits (kind_in «from»)) }
{
    match (from, to) {
        (Kind::Unsigned(v), Kind::Unsigned(w)) => unsigned_to_unsigned_kept(x, v, w),
        (Kind::Unsigned(v), Kind::Signed(w)) => unsigned_to_signed_kept(x, v, w),
        (Kind::Unsigned(v), Kind::Float(f)) => unsigned_to_float_kept(x, v, f),
        (Kind::Signed(v), Kind::Unsigned(w)) => signed_to_unsigned_kept(x, v, w),
        (Kind::Signed(v), Kind::Signed(w)) => signed_to_signed_kept(x, v, w),
        (Kind::Signed(v), Kind::Float(f)) => signed_to_float_kept(x, v, f),
        (Kind::Float(f), Kind::Unsigned(w)) => float_to_unsigned_kept(x, f, w),
        (Kind::Float(f), Kind::Signed(w)) => float_to_signed_kept(x, f, w),
        (Kind::Float(f), Kind::Float(g)) => float_to_float_kept(x, f, g),
    }
}
