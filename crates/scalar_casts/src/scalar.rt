// The ten scalars of document 01, the cast from each to each, and whether it keeps the number.
ghost use Rattle.std.specs.Prelude.{◌≡◌, ◌≢◌, ◌^◌, ◌%◌};
ghost use Rattle.numbers.specs.Casts.{kind_bits, cast_of};
ghost use Rattle.numbers.specs.Kinds.{kind_in};
ghost use Rattle.scalar_casts.specs.Scalars.{kind_of, width_of, bits_of, cast_scalar, keeps_number};

use float_casts::float::float_to_float;
use kept_casts::keeps;
use numbers::format::Format;
use numbers::integer::{
    Width, signed_to_float, signed_to_integer, unsigned_to_float, unsigned_to_integer,
};
use numbers::kind::Kind;
use truncation_casts::truncation::{float_to_signed, float_to_unsigned};

#[derive(Clone, Copy, PartialEq, Eq)]
pub enum Scalar {
    U8,
    I8,
    U16,
    I16,
    U32,
    I32,
    U64,
    I64,
    F32,
    F64,
}

impl Scalar {
    // Its bytes.
    pub fn width(self) -> usize
        ensures { result ≡ width_of self }
    {
        match self {
            Scalar::U8 | Scalar::I8 => 1,
            Scalar::U16 | Scalar::I16 => 2,
            Scalar::U32 | Scalar::I32 | Scalar::F32 => 4,
            Scalar::U64 | Scalar::I64 | Scalar::F64 => 8,
        }
    }

    // Which numbers it has.
    fn kind(self) -> Kind
        ensures { kind_in result ≡ kind_of self }
    {
        match self {
            Scalar::U8 => Kind::Unsigned(Width::W8),
            Scalar::I8 => Kind::Signed(Width::W8),
            Scalar::U16 => Kind::Unsigned(Width::W16),
            Scalar::I16 => Kind::Signed(Width::W16),
            Scalar::U32 => Kind::Unsigned(Width::W32),
            Scalar::I32 => Kind::Signed(Width::W32),
            Scalar::U64 => Kind::Unsigned(Width::W64),
            Scalar::I64 => Kind::Signed(Width::W64),
            Scalar::F32 => Kind::Float(Format::Binary32),
            Scalar::F64 => Kind::Float(Format::Binary64),
        }
    }
}

pub fn width(s: Scalar) -> usize
    ensures { result ≡ width_of s }
{
    s.width()
}

// The low bits of x, a pattern of the kind `from`, cast to another kind.
fn cast_kinds(from: Kind, to: Kind, x: u64) -> u64
    requires { kind_in «from» ≢ kind_in to }
    ensures { result ≡ cast_of (kind_in «from») (kind_in to) (x % 2 ^ kind_bits (kind_in «from»)) }
{
    match (from, to) {
        (Kind::Unsigned(v), Kind::Unsigned(w) | Kind::Signed(w)) => unsigned_to_integer(x, v, w),
        (Kind::Unsigned(v), Kind::Float(f)) => unsigned_to_float(x, v, f),
        (Kind::Signed(v), Kind::Unsigned(w) | Kind::Signed(w)) => signed_to_integer(x, v, w),
        (Kind::Signed(v), Kind::Float(f)) => signed_to_float(x, v, f),
        (Kind::Float(f), Kind::Unsigned(w)) => float_to_unsigned(x, f, w),
        (Kind::Float(f), Kind::Signed(w)) => float_to_signed(x, f, w),
        (Kind::Float(f), Kind::Float(_)) => float_to_float(x, f),
    }
}

// Pattern and scalars are parameters of their own, so that known scalars are folded.

// The pattern of the low bits of x, a pattern of the scalar `from`, cast to the scalar `to`; called with known scalars it is folded to the one
// cast. Equal scalars give those bits themselves, every NaN kept.
pub fn cast_pattern(from: Scalar, to: Scalar, x: u64) -> u64
    ensures { result ≡ cast_scalar «from» to (x % 2 ^ bits_of «from») }
{
    if from == to {
        return from.kind().pattern(x);
    }
    cast_kinds(from.kind(), to.kind(), x)
}

// Whether that cast is the same number; folded to one test, and to true where nothing can be lost.
pub fn keeps_number(from: Scalar, to: Scalar, x: u64) -> bool
    ensures { result ≡ keeps_number «from» to (x % 2 ^ bits_of «from») }
{
    keeps(from.kind(), to.kind(), x)
}

// What a cast gives: the pattern, and whether it is the same number.
#[derive(Clone, Copy)]
pub struct ScalarCast {
    pub pattern: u64,
    pub kept: bool,
}

// Both; where a caller uses one of them, the compiler drops the other.
pub fn cast_scalar(from: Scalar, to: Scalar, x: u64) -> ScalarCast
    ensures pattern { result.pattern ≡ cast_scalar «from» to (x % 2 ^ bits_of «from») }
    ensures kept { result.kept ≡ keeps_number «from» to (x % 2 ^ bits_of «from») }
{
    ScalarCast {
        pattern: cast_pattern(from, to, x),
        kept: keeps_number(from, to, x),
    }
}
