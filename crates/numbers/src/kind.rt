// The types of numbers, for code that goes from any to any.
ghost use Rattle.std.specs.Prelude.{◌≡◌, ◌^◌, ◌%◌};
ghost use Rattle.numbers.specs.Casts.{kind_bits};
ghost use Rattle.numbers.specs.Kinds.{kind_in};

use super::format::Format;
use super::integer::Width;

#[derive(Clone, Copy)]
pub enum Kind {
    Unsigned(Width),
    Signed(Width),
    Float(Format),
}

impl Kind {
    // The low bits of x, as many as a pattern of the kind has.
    pub fn pattern(self, x: u64) -> u64
        ensures { result ≡ x % 2 ^ kind_bits (kind_in self) }
    {
        match self {
            Kind::Unsigned(w) | Kind::Signed(w) => w.pattern(x),
            Kind::Float(f) => f.pattern(x),
        }
    }
}
