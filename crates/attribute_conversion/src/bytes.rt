// Numbers in bytes, little-endian, at most eight. All bytes are loaded before any is stored, so that LLVM makes one load and one store.
ghost use Rattle.std.specs.Prelude.{◌≡◌, ◌≤◌};
ghost use Rattle.common.specs.Logic.{length};
ghost use Rattle.attribute_conversion.specs.Bytes.{le_bytes, Loaded};

// The number in the bytes.
pub(crate) fn load(s: &[u8]) -> u64
    requires { length s.now ≤ 8 }
    ensures { Loaded (length s.now) s.now result }
{
    let mut bytes = [0; 8];
    bytes[..s.len()].copy_from_slice(s);
    u64::from_le_bytes(bytes)
}

// As many of the number's low bytes as there is room for.
pub(crate) fn store(d: &mut [u8], x: u64)
    requires { length d.old ≤ 8 }
    ensures { d.new ≡ le_bytes (length d.old) x }
{
    d.copy_from_slice(&x.to_le_bytes()[..d.len()]);
}
