// The two IEEE 754 formats of floats: their numbers and their patterns.
ghost use Rattle.std.specs.Prelude.{◌≡◌, ◌<◌, ◌+◌, ◌*◌, ◌^◌, ◌%◌};
ghost use Rattle.common.specs.Logic.{cond};
ghost use Rattle.std.specs.Float.Ieee.{prec, emax, hid, ones, top};
ghost use Rattle.numbers.specs.Casts.{format_of, format_bits, sign_bit};

use super::integer::low_bits;

#[derive(Clone, Copy)]
pub enum Format {
    Binary32,
    Binary64,
}

impl Format {
    // How many binary digits a significand has.
    pub fn precision(self) -> u32
        ensures { result ≡ prec (format_of self) }
    {
        match self {
            Format::Binary32 => 24,
            Format::Binary64 => 53,
        }
    }

    // The exponent's field of 1.
    pub fn bias(self) -> u64
        ensures { result ≡ emax (format_of self) }
    {
        match self {
            Format::Binary32 => 127,
            Format::Binary64 => 1023,
        }
    }

    // The pattern of infinity.
    pub fn infinity(self) -> u64
        ensures { result ≡ ones (format_of self) * hid (format_of self) }
    {
        match self {
            Format::Binary32 => 0x7f80_0000,
            Format::Binary64 => 0x7ff0_0000_0000_0000,
        }
    }

    // The sign's bit of a number.
    pub fn sign_bit(self, negative: bool) -> u64
        ensures { result ≡ cond negative (top (format_of self)) 0 }
    {
        if !negative {
            return 0;
        }
        match self {
            Format::Binary32 => 0x8000_0000,
            Format::Binary64 => 0x8000_0000_0000_0000,
        }
    }

    // The place of the sign, above all other bits.
    pub fn sign_place(self) -> u32
        ensures place { result ≡ sign_bit (format_of self) }
        ensures below { result < 64 }
    {
        match self {
            Format::Binary32 => 31,
            Format::Binary64 => 63,
        }
    }

    // The pattern of 2 ^ k, where k is no more than the format's largest exponent.
    pub fn power_of_two(self, k: u32) -> u64
        ensures { result ≡ (emax (format_of self) + k) * hid (format_of self) % 2 ^ 64 }
    {
        (self.bias() + (k as u64)) << (self.precision() - 1)
    }

    // The low bits of b, as many as a pattern of the format has.
    pub fn pattern(self, b: u64) -> u64
        ensures { result ≡ b % 2 ^ format_bits (format_of self) }
    {
        match self {
            Format::Binary32 => low_bits(b, 32),
            Format::Binary64 => b,
        }
    }
}
