// What several crates share: the numbered refusals, and two small steps.
#![tactic(auto)]

ghost use Rattle.std.specs.Prelude.{◌≡◌};
ghost use Rattle.common.specs.Logic.{min};
ghost use Rattle.std.specs.Float.Ieee.{size};
ghost use Rattle.common.specs.Refusal.{number_of};

// Why a call is refused, in the order of the numbers.
#[derive(Clone, Copy, Debug, PartialEq, Eq)]
pub enum Refusal {
    // a layout or a plan that was handed in is not sound
    Unsound,
    // a sheet ends inside a field
    SheetEnds,
    // more than 32 attributes or lines
    TooMany,
    // a name of over 31 bytes, or with a byte outside 0x20 to 0x7e
    BadName,
    // a datatype's code above 17
    UnknownDatatype,
    // a ByteArray or a Custom of size 0, or a length below 256 in 16 bits
    BadSize,
    // fill bits that are not zero, or a byte that follows
    NotAtEnd,
    // a name that already stands in the list
    NameTaken,
    // two attributes that share a byte
    SharedByte,
    // an alignment that is 0 or no power of two
    BadAlignment,
    // an end or a size past 65,535
    TooLong,
    // no source of that name
    NoSource,
    // a place that is not in its list
    NoSuchPlace,
    // a pair that has neither copy nor cast
    NoCast,
    // a source that is not count times point size long
    SourceLength,
    // a target that is not count times point size long
    TargetLength,
    // ranges of different lengths
    RangeLengths,
    // a source range past the count, or a view's part past the lent bytes
    SourceRange,
    // a target range past the count
    TargetRange,
    // a single point that ends before the end of a paired attribute
    PointLength,
    // a range that starts after its end
    BackwardRange,
    // columns that are not count times the sum of the attribute sizes long
    ColumnLength,
}

impl Refusal {
    // The number that tells it to C and in what the programs print.
    pub fn number(self) -> u8
        ensures { result ≡ number_of self }
    {
        match self {
            Refusal::Unsound => 1,
            Refusal::SheetEnds => 2,
            Refusal::TooMany => 3,
            Refusal::BadName => 4,
            Refusal::UnknownDatatype => 5,
            Refusal::BadSize => 6,
            Refusal::NotAtEnd => 7,
            Refusal::NameTaken => 8,
            Refusal::SharedByte => 9,
            Refusal::BadAlignment => 10,
            Refusal::TooLong => 11,
            Refusal::NoSource => 12,
            Refusal::NoSuchPlace => 13,
            Refusal::NoCast => 14,
            Refusal::SourceLength => 15,
            Refusal::TargetLength => 16,
            Refusal::RangeLengths => 17,
            Refusal::SourceRange => 18,
            Refusal::TargetRange => 19,
            Refusal::PointLength => 20,
            Refusal::BackwardRange => 21,
            Refusal::ColumnLength => 22,
        }
    }
}

// The smaller of two numbers.
pub fn least(a: u64, b: u64) -> u64
    ensures { result ≡ min a b }
{
    a.min(b)
}

// How many binary digits the number has.
pub fn significant_bits(x: u64) -> u32
    ensures { result ≡ size x }
{
    64 - u64::leading_zeros(x)
}
