// A reader of fields packed in a sheet, most significant bit first.
ghost use Rattle.std.specs.Prelude.{◌≡◌, ◌≤◌, ◌<◌, ◌+◌, ◌*◌, ◌^◌};
ghost use Rattle.common.specs.Logic.{length, min};
ghost use Rattle.common.specs.Refusal.{number_of};
ghost use Rattle.format.specs.Bits.{bit_at, number_at, zero_fill};
ghost use Rattle.format.specs.Format.{bits, bits_from};
ghost use Rattle.layout_sheets.specs.Reader.{given, reads};

use common::Refusal;
use std::marker::Model;

// A sheet, and the place up to which it is read: so many bytes, and so many bits of the next.
#[derive(Drop)]
pub struct SheetReader<'a> {
    sheet: &'a [u8],
    byte: usize,
    bit: usize,
}

impl<'a> Model for SheetReader<'a> {
    ghost use Rattle.std.specs.Prelude.{◌<◌, ◌+◌, ◌*◌, ◌^◌};
    ghost use Rattle.layout_sheets.specs.Place.{Place};

    ghost Value = { Place };

    ghost view = { λ r. record { sheet = r.sheet.now; at = 8 * r.byte + r.bit } };

    ghost invariant = { λ r. (r.byte < 2 ^ 63) × (r.bit < 8) };
}

// The bit at a place, counted from the first bit of a byte on.
fn bit_at(sheet: &[u8], byte: usize, at: usize) -> u64
    requires { (8 * byte + at < 8 * length sheet.now) × (at < 128) }
    ensures { result ≡ bit_at sheet.now (8 * byte + at) }
{
    let octet = sheet[byte + at / 8];
    ((octet >> (7 - at % 8)) % 2) as u64
}

// The number that so many bits spell.
fn number_at(sheet: &[u8], byte: usize, bit: usize, width: usize) -> u64
    requires { (width ≤ 64) × (bit < 8) × (8 * byte + bit + width ≤ 8 * length sheet.now) }
    ensures { result ≡ number_at sheet.now (8 * byte + bit) width }
{
    let mut value: u64 = 0;
    for k in 0..width {
        value = value * 2 + bit_at(sheet, byte, bit + k);
    }
    value
}

impl<'a> SheetReader<'a> {
    // The sheet from a bit on.
    pub fn new(sheet: &'a [u8], at: u32) -> SheetReader<'a>
        ensures { result ≡ record { sheet = sheet.now; at = at } }
    {
        SheetReader {
            sheet,
            byte: at as usize / 8,
            bit: at as usize % 8,
        }
    }

    fn take(&mut self, width: usize) -> Result<u64, Refusal>
        requires { width ≤ 64 }
        ensures { given result self.new ≡ reads (bits width) self.old }
    {
        let end = self.bit + width;
        if self.sheet.len() < self.byte + (end + 7) / 8 {
            return Err(Refusal::SheetEnds);
        }
        let value = number_at(self.sheet, self.byte, self.bit, width);
        self.byte += end / 8;
        self.bit = end % 8;
        Ok(value)
    }

    // The next field, of up to 16 bits; where the width is greater, 16 are read.
    pub fn field(&mut self, width: u8) -> Result<u16, Refusal>
        ensures { given result self.new ≡ reads (bits (min width 16)) self.old }
    {
        let value = self.take(width.min(16) as usize)?;
        Ok(value as u16)
    }

    // The next field, refused where its value does not lie from low to high.
    pub fn field_from(
        &mut self,
        width: u8,
        low: u16,
        high: u16,
        refusal: Refusal,
    ) -> Result<u16, Refusal>
        ensures { given result self.new ≡ reads (bits_from (number_of refusal) low high (min width 16)) self.old }
    {
        let value = self.field(width)?;
        if low <= value && value <= high {
            Ok(value)
        } else {
            Err(refusal)
        }
    }

    // The next field of 64 bits.
    pub fn wide(&mut self) -> Result<u64, Refusal>
        ensures { given result self.new ≡ reads (bits 64) self.old }
    {
        self.take(64)
    }

    // Zero bits alone follow up to the end of the byte, and no further byte.
    pub fn ends(&self) -> bool
        ensures { result ≡ zero_fill self.now.sheet self.now.at }
    {
        if self.sheet.len() != self.byte + (self.bit + 7) / 8 {
            return false;
        }
        number_at(self.sheet, self.byte, self.bit, (8 - self.bit) % 8) == 0
    }
}
