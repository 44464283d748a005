// Alignment of numbers (arithmetic.rs).
ghost use Rattle.std.specs.Prelude.{◌≡◌};
ghost use Rattle.datatype.specs.Arithmetic.{align_to, is_power_of_two};

// The next multiple of the alignment; 0 leaves the number unchanged.
pub fn align_to(x: u32, alignment: u32) -> u64
    ensures { result ≡ align_to x alignment }
{
    if alignment == 0 {
        return x as u64;
    }
    let a = alignment as u64;
    (x as u64 + (a - 1)) / a * a
}

// 0 is none. By the digits, as it is defined: the library's method counts the bits that are set, and no law of it speaks of powers.
pub fn is_power_of_two(x: u32) -> bool
    ensures { result ≡ is_power_of_two x }
{
    if x == 0 {
        return false;
    }
    let digits = common::significant_bits(x as u64);
    x as u64 == 1u64 << (digits - 1)
}
