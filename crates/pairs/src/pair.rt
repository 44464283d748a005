// The pair table of document 01, section Cast, with document 02's Custom, and the answer of two datatypes by it.
ghost use Rattle.std.specs.Prelude.{◌≡◌, ◌≤◌};
ghost use Rattle.datatype.specs.Datatype.{byte_array, with_code};
ghost use Rattle.pairs.specs.Pairs.{castable, pair_of, has_entry};

use datatype::datatype::{Datatype, same_datatype, size_of};

#[derive(Clone, Copy, PartialEq, Eq, Debug)]
pub enum Pair {
    Copy,
    Cast,
    Nothing,
}

// Copy, cast or nothing for any two datatypes. One that is refused, whose code is above 17 or whose size is 0, has nothing.
pub fn pair_of(from: Datatype, to: Datatype) -> Pair
    ensures { result ≡ pair_of «from» to }
{
    if size_of(from) == 0 || size_of(to) == 0 {
        return Pair::Nothing;
    }
    match entry(from.code, to.code) {
        _ if same_datatype(from, to) => Pair::Copy,
        Pair::Cast => Pair::Cast,
        _ => Pair::Nothing,
    }
}

// Whether two codes are cast.
fn is_castable(a: u8, b: u8) -> bool
    ensures { result ≡ castable a b }
{
    a != b && matches!((a, b), (0..=9, 0..=9) | (10..=14, 10..=14))
}

// Whether the pair is copy or cast, decided on the two codes: by `pair_of` LLVM no longer folds the loop over ByteArrays, which then takes three
// times as long. A datatype that is refused has no size.
pub fn has_entry(from: Datatype, to: Datatype) -> bool
    ensures { result ≡ has_entry (pair_of «from» to) }
{
    if same_datatype(from, to) {
        return size_of(from) != 0;
    }
    is_castable(from.code, to.code)
}

// What the table has for two codes; its ByteArrays are equal, and so are its Customs.
fn entry(a: u8, b: u8) -> Pair
    requires { (a ≤ 17) × (b ≤ 17) }
    ensures { result ≡ pair_of (with_code (byte_array 1) a) (with_code (byte_array 1) b) }
{
    PAIRS[a as usize][b as usize]
}

const COPY: Pair = Pair::Copy;

const CAST: Pair = Pair::Cast;

const NONE: Pair = Pair::Nothing;

// Eighteen rows, one for each code `from`, by eighteen columns, one for each code `to`; a static, since a function that reads a constant
// array builds it anew at each call.
static PAIRS: [[Pair; 18]; 18] = [
    [
        COPY, CAST, CAST, CAST, CAST, CAST, CAST, CAST, CAST, CAST, NONE, NONE, NONE, NONE, NONE,
        NONE, NONE, NONE,
    ],
    [
        CAST, COPY, CAST, CAST, CAST, CAST, CAST, CAST, CAST, CAST, NONE, NONE, NONE, NONE, NONE,
        NONE, NONE, NONE,
    ],
    [
        CAST, CAST, COPY, CAST, CAST, CAST, CAST, CAST, CAST, CAST, NONE, NONE, NONE, NONE, NONE,
        NONE, NONE, NONE,
    ],
    [
        CAST, CAST, CAST, COPY, CAST, CAST, CAST, CAST, CAST, CAST, NONE, NONE, NONE, NONE, NONE,
        NONE, NONE, NONE,
    ],
    [
        CAST, CAST, CAST, CAST, COPY, CAST, CAST, CAST, CAST, CAST, NONE, NONE, NONE, NONE, NONE,
        NONE, NONE, NONE,
    ],
    [
        CAST, CAST, CAST, CAST, CAST, COPY, CAST, CAST, CAST, CAST, NONE, NONE, NONE, NONE, NONE,
        NONE, NONE, NONE,
    ],
    [
        CAST, CAST, CAST, CAST, CAST, CAST, COPY, CAST, CAST, CAST, NONE, NONE, NONE, NONE, NONE,
        NONE, NONE, NONE,
    ],
    [
        CAST, CAST, CAST, CAST, CAST, CAST, CAST, COPY, CAST, CAST, NONE, NONE, NONE, NONE, NONE,
        NONE, NONE, NONE,
    ],
    [
        CAST, CAST, CAST, CAST, CAST, CAST, CAST, CAST, COPY, CAST, NONE, NONE, NONE, NONE, NONE,
        NONE, NONE, NONE,
    ],
    [
        CAST, CAST, CAST, CAST, CAST, CAST, CAST, CAST, CAST, COPY, NONE, NONE, NONE, NONE, NONE,
        NONE, NONE, NONE,
    ],
    [
        NONE, NONE, NONE, NONE, NONE, NONE, NONE, NONE, NONE, NONE, COPY, CAST, CAST, CAST, CAST,
        NONE, NONE, NONE,
    ],
    [
        NONE, NONE, NONE, NONE, NONE, NONE, NONE, NONE, NONE, NONE, CAST, COPY, CAST, CAST, CAST,
        NONE, NONE, NONE,
    ],
    [
        NONE, NONE, NONE, NONE, NONE, NONE, NONE, NONE, NONE, NONE, CAST, CAST, COPY, CAST, CAST,
        NONE, NONE, NONE,
    ],
    [
        NONE, NONE, NONE, NONE, NONE, NONE, NONE, NONE, NONE, NONE, CAST, CAST, CAST, COPY, CAST,
        NONE, NONE, NONE,
    ],
    [
        NONE, NONE, NONE, NONE, NONE, NONE, NONE, NONE, NONE, NONE, CAST, CAST, CAST, CAST, COPY,
        NONE, NONE, NONE,
    ],
    [
        NONE, NONE, NONE, NONE, NONE, NONE, NONE, NONE, NONE, NONE, NONE, NONE, NONE, NONE, NONE,
        COPY, NONE, NONE,
    ],
    [
        NONE, NONE, NONE, NONE, NONE, NONE, NONE, NONE, NONE, NONE, NONE, NONE, NONE, NONE, NONE,
        NONE, COPY, NONE,
    ],
    [
        NONE, NONE, NONE, NONE, NONE, NONE, NONE, NONE, NONE, NONE, NONE, NONE, NONE, NONE, NONE,
        NONE, NONE, COPY,
    ],
];
