// A whole number shifted down, and rounded to the nearest.
ghost use Rattle.std.specs.Prelude.{◌≡◌, ◌^◌, ◌%◌};
ghost use Rattle.std.specs.Float.Ieee.Nearest.{closest};

use super::integer::low_bits;

// The 63 low bits of m over 2 ^ d, to the nearest whole number, a tie to the even one, by one sum and one shift: the sum adds half of the last
// digit that stays, less one where that digit is 0.
pub fn shift_round(m: u64, d: u32) -> u64
    ensures { result ≡ closest (m % 2 ^ 63) (2 ^ d) }
{
    let x = low_bits(m, 63);
    if d == 0 {
        return x;
    }
    if 64 <= d {
        return 0;
    }
    let half = 1u64 << (d - 1);
    (x + (half - 1) + ((x >> d) & 1)) >> d
}
