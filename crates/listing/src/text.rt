// The bytes of a listing, or of the line of a refusal, as they are written: byte after byte, word after word, number after number.
ghost use Rattle.std.specs.Prelude.{◌≡◌, ◌∷◌, ◌++◌, ◌≤◌, ◌<◌, ◌+◌, [], List, ℕ, length, take};
ghost use Rattle.listing.specs.Text.{digits};

use super::lister::LISTING_SIZE;
use std::marker::Model;

// The first length bytes are written. The library has no heap, so their place is fixed.
#[derive(Drop)]
pub(crate) struct Text {
    bytes: [u8; LISTING_SIZE],
    length: usize,
}

// Clauses see the bytes that are written.
impl Model for Text {
    ghost use Rattle.std.specs.Prelude.{ℕ, List, ◌≤◌, take};

    ghost Value = { List ℕ };

    ghost view = { λ t. take t.length t.bytes };

    ghost invariant = { λ t. t.length ≤ 1996 };
}

impl Text {
    pub(crate) fn new() -> Text
        ensures { result ≡ [] }
    {
        Text {
            bytes: [0; LISTING_SIZE],
            length: 0,
        }
    }

    pub(crate) fn as_bytes(&self) -> &[u8]
        ensures { result.now ≡ self.now }
    {
        &self.bytes[..self.length]
    }

    pub(crate) fn push_byte(&mut self, byte: u8)
        requires { length self.old < 1996 }
        ensures bytes { self.new ≡ self.old ++ (byte ∷ []) }
        ensures size { length self.new ≡ length self.old + 1 }
    {
        self.bytes[self.length] = byte;
        self.length += 1;
    }

    pub(crate) fn push_word(&mut self, word: &[u8])
        requires { length self.old + length word.now ≤ 1996 }
        ensures bytes { self.new ≡ self.old ++ word.now }
        ensures size { length self.new ≡ length self.old + length word.now }
    {
        let end = self.length + word.len();
        self.bytes[self.length..end].copy_from_slice(word);
        self.length = end;
    }

    // The decimal digits of a number, at most five.
    pub(crate) fn push_number(&mut self, number: u16)
        requires { length self.old + 5 ≤ 1996 }
        ensures bytes { self.new ≡ self.old ++ digits number }
        ensures size { length self.new ≤ length self.old + 5 }
    {
        if 10 <= number {
            self.push_number(number / 10);
        }
        self.push_byte(b'0' + (number % 10) as u8);
    }

    // A space, and a word after it.
    pub(crate) fn push_next_word(&mut self, word: &[u8])
        requires { length self.old + length word.now < 1996 }
        ensures bytes { self.new ≡ self.old ++ (0x20 ∷ word.now) }
        ensures size { length self.new ≡ length self.old + length word.now + 1 }
    {
        self.push_byte(b' ');
        self.push_word(word);
    }

    // A space, and a number after it.
    pub(crate) fn push_next_number(&mut self, number: u16)
        requires { length self.old + 5 < 1996 }
        ensures bytes { self.new ≡ self.old ++ (0x20 ∷ digits number) }
        ensures size { length self.new ≤ length self.old + 6 }
    {
        self.push_byte(b' ');
        self.push_number(number);
    }
}
