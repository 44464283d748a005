// Decimal numbers in text, as F64: one of them, and several in one text.
#![tactic(auto)]

ghost use Rattle.std.specs.Prelude.{◌≡◌, ◌≤◌, ◌<◌, ◌+◌, ◌-◌, ◌^◌, Ok};
ghost use Rattle.common.specs.Logic.{true, false, [], length};
ghost use Rattle.common.specs.Lists.{all};
ghost use Rattle.std.specs.Float.{binary64};
ghost use Rattle.std.specs.Float.Ieee.{round};
ghost use Rattle.decimals.specs.Decimals.{is_digit, number_from, value_of, are_digits, decimal_by, unsigned_of, decimal_of};
ghost use Rattle.decimals.specs.Numbers.{wanted, separates, is_word, line_after, with_word, with_number, after_words, at_end, numbers_of};

// A text of several decimals.
#[derive(Clone, Copy)]
pub enum Form {
    // twelve, with blanks between them: spaces, tabs, carriage returns and newlines
    Pose,
    // three, with commas between them
    Shift,
}

// Why such a text is refused.
#[derive(Clone, Copy, Debug, PartialEq, Eq)]
pub enum NumbersError {
    // the line of the first word that is no decimal, or that is one too many
    BadWord(u64),
    TooMany(u64),
    // the line where the text ends
    TooFew(u64),
}

// The numbers of the words so far, and zeros after them. Without heap an array, of which the first count are read.
#[derive(Clone, Copy)]
struct Reading {
    count: usize,
    numbers: [f64; 12],
}

// How many digits a decimal has at most: the number of them all, and the power of ten that divides it, are F64.
const MOST_DIGITS: usize = 15;

// ---- digits

#[tactic(auto, unfolding(crate::specs::Decimals::is_digit))]
fn is_digit(b: u8) -> bool
    ensures { result ≡ is_digit b }
{
    b.is_ascii_digit()
}

fn digit(b: u8) -> u64
    requires { is_digit b ≡ true }
    ensures { (result ≡ b - 0x30) × (result ≤ 9) }
{
    (b - b'0') as u64
}

fn all_digits(text: &[u8]) -> bool
    ensures { result ≡ all is_digit text.now }
{
    text.iter().all(|b| is_digit(*b))
}

// The number whose digits are the `count` digits of `start` and then those of the text.
fn number_from(start: u64, count: usize, text: &[u8]) -> u64
    requires { (all is_digit text.now ≡ true) × (start < 10 ^ count) × (count + length text.now ≤ 15) }
    ensures { (result ≡ number_from start text.now) × (result < 10 ^ (count + length text.now)) }
{
    let mut n = start;
    for b in text {
        n = n * 10 + digit(*b);
    }
    n
}

// ---- values

// Two integers that are F64, so that the quotient alone is rounded.
fn quotient(number: u64, divisor: u64) -> f64
    requires { (number < 2 ^ 53) × (0 < divisor) × (divisor < 2 ^ 53) }
    ensures { result ≡ round binary64 false number divisor }
{
    (number as f64) / (divisor as f64)
}

fn value_of(negative: bool, number: u64, k: usize) -> f64
    requires { (number < 10 ^ 15) × (k ≤ 15) }
    ensures { result ≡ value_of negative number k }
{
    let power = 10u64.pow(k as u32);
    let value = quotient(number, power);
    if negative { -value } else { value }
}

// ---- one decimal

#[tactic(auto, using(crate::proofs::Texts::all_both), unfolding(crate::specs::Decimals::are_digits))]
fn are_digits(whole: &[u8], fraction: &[u8]) -> bool
    ensures { result ≡ are_digits whole.now fraction.now }
{
    let count = whole.len() + fraction.len();
    all_digits(whole) && all_digits(fraction) && 1 <= count && count <= MOST_DIGITS
}

fn decimal_by(negative: bool, whole: &[u8], fraction: &[u8]) -> Option<f64>
    ensures { result ≡ decimal_by negative whole.now fraction.now }
{
    if !are_digits(whole, fraction) {
        return None;
    }
    let first = number_from(0, 0, whole);
    let number = number_from(first, whole.len(), fraction);
    Some(value_of(negative, number, fraction.len()))
}

// What stands before the first point, and what stands behind it; with no point all stands before it.
fn unsigned_of(negative: bool, text: &[u8]) -> Option<f64>
    ensures { result ≡ unsigned_of negative text.now }
{
    match text.iter().position(|b| *b == b'.') {
        Some(point) => decimal_by(negative, &text[..point], &text[point + 1..]),
        None => decimal_by(negative, text, b""),
    }
}

// The value of a whole text that is a decimal.
pub fn read_decimal(text: &[u8]) -> Option<f64>
    ensures { result ≡ decimal_of text.now }
{
    match text {
        [] => None,
        [b'-', unsigned @ ..] => unsigned_of(true, unsigned),
        [b'+', unsigned @ ..] => unsigned_of(false, unsigned),
        _ => unsigned_of(false, text),
    }
}

// ---- several decimals

impl Form {
    fn wanted(self) -> usize
        ensures { result ≡ wanted self }
    {
        match self {
            Form::Pose => 12,
            Form::Shift => 3,
        }
    }

    fn separates(self, b: u8) -> bool
        ensures { result ≡ separates self b }
    {
        match self {
            Form::Pose => matches!(b, b' ' | b'\t' | b'\n' | b'\r'),
            Form::Shift => b == b',',
        }
    }

    // Nothing between two blanks is no word.
    fn is_word(self, length: usize) -> bool
        ensures { result ≡ is_word self length }
    {
        match self {
            Form::Pose => length != 0,
            Form::Shift => true,
        }
    }
}

impl Reading {
    fn with_number(self, form: Form, line: u64, value: f64) -> Result<Reading, NumbersError>
        ensures { result ≡ with_number form self line value }
    {
        let count = self.count;
        if form.wanted() <= count {
            return Err(NumbersError::TooMany(line));
        }
        let mut numbers = self.numbers;
        numbers[count] = value;
        Ok(Reading {
            count: count + 1,
            numbers,
        })
    }

    #[tactic(auto, unfolding(crate::specs::Numbers::after_words, crate::specs::Numbers::with_word))]
    fn with_word(self, form: Form, line: u64, word: &[u8]) -> Result<Reading, NumbersError>
        ensures { result ≡ after_words form (Ok self) (with_word form line word.now []) }
    {
        if !form.is_word(word.len()) {
            return Ok(self);
        }
        let value = read_decimal(word).ok_or(NumbersError::BadWord(line))?;
        self.with_number(form, line, value)
    }

    fn at_end(self, form: Form, line: u64) -> Result<[f64; 12], NumbersError>
        ensures { result ≡ at_end form line (Ok self) }
    {
        if self.count < form.wanted() {
            return Err(NumbersError::TooFew(line));
        }
        Ok(self.numbers)
    }
}

fn line_after(line: u64, b: u8) -> u64
    requires { line < 2 ^ 63 }
    ensures { (result ≡ line_after line b) × (result ≤ line + 1) }
{
    if b == b'\n' { line + 1 } else { line }
}

// The numbers of a whole text, and zeros after them.
pub fn read_numbers(form: Form, text: &[u8]) -> Result<[f64; 12], NumbersError>
    ensures { result ≡ numbers_of form text.now }
{
    let mut reading = Reading {
        count: 0,
        numbers: [0.0; 12],
    };
    let mut line: u64 = 1;
    let mut start = 0;
    for (i, b) in text.iter().enumerate() {
        if form.separates(*b) {
            reading = reading.with_word(form, line, &text[start..i])?;
            start = i + 1;
        }
        line = line_after(line, *b);
    }
    let last = reading.with_word(form, line, &text[start..])?;
    last.at_end(form, line)
}
