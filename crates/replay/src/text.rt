// Reading a line from left to right: numbers, words and bytes, and what is due. The line's end is read as a space.
ghost use Rattle.std.specs.Prelude.{◌≤◌, ◌<◌, IfOk, IfSome, IsSome, IsTrue, OnOk, length};

use common::Refusal;
use std::num::ParseIntError;
use std::str::{self, FromStr, Utf8Error};

// Why a line does not agree with a call: it cannot be read, or something else is due.
#[derive(Clone, Copy)]
pub(crate) enum Failure {
    Differs,
}

impl From<Utf8Error> for Failure {
    fn from(_error: Utf8Error) -> Failure {
        Failure::Differs
    }
}

impl From<ParseIntError> for Failure {
    fn from(_error: ParseIntError) -> Failure {
        Failure::Differs
    }
}

pub(crate) type Result<T> = std::result::Result<T, Failure>;

// What a call gives, or its refusal.
pub(crate) type Outcome<T> = std::result::Result<T, Refusal>;

// The most bytes that a field has.
const FIELD: usize = 8192;

// The most bytes that are read of a field, before a `*N` cuts them.
const READ: usize = 65535;

// What is due beside the number of a refusal, where a number is due otherwise.
const REFUSED: u64 = 200000;

// The bytes of a field, in memory of their own.
#[derive(Clone, Copy)]
pub(crate) struct Part {
    bytes: [u8; FIELD],
    length: usize,
}

impl Part {
    pub(crate) fn as_slice(&self) -> &[u8] {
        &self.bytes[..self.length.min(FIELD)]
    }

    pub(crate) fn as_mut_slice(&mut self) -> &mut [u8] {
        let end = self.length.min(FIELD);
        &mut self.bytes[..end]
    }
}

// What is left of a line.
#[derive(Clone, Copy)]
pub(crate) struct Line<'a> {
    rest: &'a [u8],
}

pub(crate) fn agree(holds: bool) -> Result<()>
    ensures { OnOk result (IsTrue holds) }
{
    if holds { Ok(()) } else { Err(Failure::Differs) }
}

// The value of a digit of a number in hex.
fn hex_digit(b: u8) -> Option<u8>
    ensures { IfSome result (λ digit. digit < 16) }
{
    match b {
        b'0'..=b'9' => Some(b - b'0'),
        b'a'..=b'f' => Some(b - b'a' + 10),
        _ => None,
    }
}

// The byte from n on, up to m bytes in all, as far as there is space.
fn put(space: &mut [u8], n: usize, m: usize, byte: u8) {
    let end = m.min(space.len());
    if let Some(part) = space.get_mut(n..end) {
        part.fill(byte);
    }
}

impl<'a> Line<'a> {
    pub(crate) fn new(text: &'a [u8]) -> Self {
        Line { rest: text }
    }

    // A title may stand at the line's end.
    pub(crate) fn is_read(&self) -> bool {
        matches!(self.rest, [] | [b'#', ..])
    }

    // Past the byte where it stands next; whether it does.
    pub(crate) fn takes(&mut self, byte: u8) -> bool {
        match self.rest {
            [] => byte == b' ',
            [first, rest @ ..] if *first == byte => {
                self.rest = rest;
                true
            }
            _ => false,
        }
    }

    pub(crate) fn past(&mut self, byte: u8) -> Result<()> {
        agree(self.takes(byte))
    }

    // ---- numbers and words

    // The bytes before the first that is no part.
    fn run<F: Fn(u8) -> bool>(&mut self, is_part: F) -> &'a [u8]
        requires { F.IsAlwaysCallable is_part }
        ensures { length self.new.rest.now ≤ length self.old.rest.now }
    {
        let n = self
            .rest
            .iter()
            .position(|b| !is_part(*b))
            .unwrap_or(self.rest.len());
        let (run, rest) = self.rest.split_at(n);
        self.rest = rest;
        run
    }

    // As many digits as stand next.
    pub(crate) fn plain<T: FromStr<Err = ParseIntError> + Drop>(&mut self) -> Result<T>
        ensures { length self.new.rest.now ≤ length self.old.rest.now }
    {
        let digits = self.run(|b| b.is_ascii_digit());
        Ok(str::from_utf8(digits)?.parse::<T>()?)
    }

    // The same, and the byte after it.
    pub(crate) fn number<T: FromStr<Err = ParseIntError> + Drop>(&mut self, end: u8) -> Result<T> {
        let number = self.plain::<T>()?;
        self.past(end)?;
        Ok(number)
    }

    // A number in hex, and the byte after it.
    pub(crate) fn hex(&mut self, end: u8) -> Result<u64> {
        let digits = self.run(|b| hex_digit(b).is_some());
        let number = u64::from_str_radix(str::from_utf8(digits)?, 16)?;
        self.past(end)?;
        Ok(number)
    }

    // A field that is a word; bytes of 0 before it are passed over.
    pub(crate) fn word(&mut self) -> Result<&'a [u8]> {
        self.run(|b| b == 0);
        let word = self.run(|b| b != b' ');
        self.past(b' ')?;
        Ok(word)
    }

    // ---- bytes: pairs of hex digits, and text in quotes; `*N` for N bytes in all, the last one repeated

    // A byte by its two digits.
    fn hex_pair(&mut self) -> Option<u8>
        ensures { IsSome result → length self.new.rest.now < length self.old.rest.now }
    {
        let [high, low, rest @ ..] = self.rest else {
            return None;
        };
        let byte = hex_digit(*high)? * 16 + hex_digit(*low)?;
        self.rest = rest;
        Some(byte)
    }

    // At most so many bytes, and the byte after them; the space gets as many as fit. Answers how many there are.
    pub(crate) fn bytes(&mut self, space: &mut [u8], most: usize, end: u8) -> Result<usize>
        ensures { IfOk result (λ n. n ≤ most) }
    {
        let mut n: usize = 0;
        let mut last = 0;
        let mut quoted = false;
        while let [first, rest @ ..] = self.rest {
            agree(n <= READ)?;
            let all = match *first {
                b'"' => {
                    self.rest = rest;
                    quoted = !quoted;
                    n
                }
                byte if quoted => {
                    self.rest = rest;
                    last = byte;
                    n + 1
                }
                b'*' => {
                    self.rest = rest;
                    usize::from(self.plain::<u16>()?)
                }
                _ => {
                    let Some(byte) = self.hex_pair() else {
                        break;
                    };
                    last = byte;
                    n + 1
                }
            };
            put(space, n, all, last);
            n = all;
        }
        self.past(end)?;
        agree(n <= most)?;
        Ok(n)
    }

    // A field of bytes.
    pub(crate) fn part(&mut self) -> Result<Part> {
        let mut bytes = [0u8; FIELD];
        let length = self.bytes(&mut bytes, FIELD, b' ')?;
        Ok(Part { bytes, length })
    }

    // ---- what is due

    pub(crate) fn equals(&mut self) -> Result<()> {
        self.past(b'=')?;
        self.past(b' ')
    }

    pub(crate) fn due(&mut self, n: u64) -> Result<()> {
        let due = self.number::<u64>(b' ')?;
        agree(due == n)
    }

    // The number, or the number of the refusal above all of those.
    pub(crate) fn due_outcome(&mut self, outcome: Outcome<u64>) -> Result<()> {
        match outcome {
            Ok(n) => self.due(n),
            Err(refusal) => self.due(REFUSED + u64::from(refusal.number())),
        }
    }

    // `= ` and a number.
    pub(crate) fn due_number(&mut self, number: u8) -> Result<()> {
        self.equals()?;
        self.due(u64::from(number))
    }

    // `= ` and the number of the refusal, 0 for none.
    pub(crate) fn due_answer(&mut self, answer: Outcome<()>) -> Result<()> {
        self.due_number(answer.map_or_else(|refusal| refusal.number(), |()| 0))
    }

    pub(crate) fn due_bytes(&mut self, bytes: &[u8]) -> Result<()> {
        let due = self.part()?;
        agree(due.as_slice() == bytes)
    }

    // The answer, and the lent bytes after the call.
    pub(crate) fn due_left(&mut self, answer: Outcome<()>, left: &[u8]) -> Result<()> {
        self.due_answer(answer)?;
        self.due_bytes(left)
    }

    // The answer, beside it the number lost where nothing was refused, and the lent bytes after the call.
    pub(crate) fn due_lost(&mut self, lost: Outcome<u64>, left: &[u8]) -> Result<()> {
        self.due_answer(lost.map(|_| ()))?;
        if let Ok(n) = lost {
            self.due(n)?;
        }
        self.due_bytes(left)
    }
}
