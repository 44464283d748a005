// The eighteen datatypes, each with its size and its alignment (point_layout.rs).
ghost use Rattle.std.specs.Prelude.{◌≡◌};
ghost use Rattle.common.specs.Refusal.{outcome_of};
ghost use Rattle.datatype.specs.Datatype.{plain, byte_array, custom, with_code, known, datatype_of, size_of, align_of, same_custom, same_datatype};

use common::Refusal;

// A datatype as a caller hands it in: any code; n, the bytes of a ByteArray or of a Custom; and a Custom's minimum alignment and name, 128 bits,
// the first 64 of a sheet's in name_high. What a code does not have is not looked at.
#[repr(C)]
#[derive(Clone, Copy, Debug, PartialEq, Eq)]
pub struct Datatype {
    pub code: u8,
    pub n: u16,
    pub alignment: u8,
    pub name_high: u64,
    pub name_low: u64,
}

impl Datatype {
    // The datatype of a code that has no numbers beside it: 0 to 15.
    pub fn plain(code: u8) -> Self
        ensures { result ≡ plain code }
    {
        Datatype {
            code,
            n: 0,
            alignment: 0,
            name_high: 0,
            name_low: 0,
        }
    }

    // A ByteArray of n.
    pub fn byte_array(n: u16) -> Self
        ensures { result ≡ byte_array n }
    {
        Datatype {
            code: 16,
            n,
            alignment: 0,
            name_high: 0,
            name_low: 0,
        }
    }

    // A Custom of that size, minimum alignment and name.
    pub fn custom(size: u16, alignment: u8, name_high: u64, name_low: u64) -> Self
        ensures { result ≡ custom size alignment name_high name_low }
    {
        Datatype {
            code: 17,
            n: size,
            alignment,
            name_high,
            name_low,
        }
    }

    // The same but for its code.
    pub fn with_code(self, code: u8) -> Self
        ensures { result ≡ with_code self code }
    {
        Datatype { code, ..self }
    }
}

#[derive(Clone, Copy, Debug, PartialEq, Eq)]
pub enum PointAttributeDataType {
    U8,
    I8,
    U16,
    I16,
    U32,
    I32,
    U64,
    I64,
    F32,
    F64,
    Vec3u8,
    Vec3u16,
    Vec3f32,
    Vec3i32,
    Vec3f64,
    Vec4u8,
    ByteArray(u16),
    Custom {
        size: u16,
        min_alignment: u8,
        name_high: u64,
        name_low: u64,
    },
}

// What a code stands for, its size and its alignment in bytes.
#[derive(Clone, Copy, Debug, PartialEq, Eq)]
pub struct Properties {
    pub datatype: PointAttributeDataType,
    pub size: u16,
    pub alignment: u8,
}

fn known(datatype: PointAttributeDataType, size: u16, alignment: u8) -> Result<Properties, Refusal>
    ensures { result ≡ Ok (known datatype size alignment) }
{
    Ok(Properties {
        datatype,
        size,
        alignment,
    })
}

#[tactic(auto, unfolding(crate::specs::Datatype::datatype_of, crate::specs::Datatype::datatype_lines, crate::specs::Datatype::codes, common::specs::Refusal::check, common::specs::Refusal::answer, common::specs::Refusal::outcome))]
pub fn datatype_of(datatype: Datatype) -> Result<Properties, Refusal>
    ensures { outcome_of result ≡ datatype_of datatype }
{
    match datatype.code {
        0 => known(PointAttributeDataType::U8, 1, 1),
        1 => known(PointAttributeDataType::I8, 1, 1),
        2 => known(PointAttributeDataType::U16, 2, 2),
        3 => known(PointAttributeDataType::I16, 2, 2),
        4 => known(PointAttributeDataType::U32, 4, 4),
        5 => known(PointAttributeDataType::I32, 4, 4),
        6 => known(PointAttributeDataType::U64, 8, 8),
        7 => known(PointAttributeDataType::I64, 8, 8),
        8 => known(PointAttributeDataType::F32, 4, 4),
        9 => known(PointAttributeDataType::F64, 8, 8),
        10 => known(PointAttributeDataType::Vec3u8, 3, 1),
        11 => known(PointAttributeDataType::Vec3u16, 6, 2),
        12 => known(PointAttributeDataType::Vec3f32, 12, 4),
        13 => known(PointAttributeDataType::Vec3i32, 12, 4),
        14 => known(PointAttributeDataType::Vec3f64, 24, 8),
        15 => known(PointAttributeDataType::Vec4u8, 4, 1),
        16 | 17 if datatype.n == 0 => Err(Refusal::BadSize),
        16 => known(PointAttributeDataType::ByteArray(datatype.n), datatype.n, 1),
        17 => known(
            PointAttributeDataType::Custom {
                size: datatype.n,
                min_alignment: datatype.alignment,
                name_high: datatype.name_high,
                name_low: datatype.name_low,
            },
            datatype.n,
            datatype.alignment,
        ),
        _ => Err(Refusal::UnknownDatatype),
    }
}

// 0 where the datatype is refused.
#[tactic(auto, unfolding(crate::specs::Datatype::size_of, common::specs::Refusal::left_by))]
pub fn size_of(datatype: Datatype) -> u16
    ensures { result ≡ size_of datatype }
{
    match datatype_of(datatype) {
        Ok(known) => known.size,
        Err(_) => 0,
    }
}

// 0 where the datatype is refused.
#[tactic(auto, unfolding(crate::specs::Datatype::align_of, common::specs::Refusal::left_by))]
pub fn align_of(datatype: Datatype) -> u8
    ensures { result ≡ align_of datatype }
{
    match datatype_of(datatype) {
        Ok(known) => known.alignment,
        Err(_) => 0,
    }
}

// Equal sizes, alignments and names.
#[tactic(auto, unfolding(crate::specs::Datatype::same_custom))]
fn same_custom(a: Datatype, b: Datatype) -> bool
    ensures { result ≡ same_custom a b }
{
    (a.n == b.n && a.alignment == b.alignment)
        && (a.name_high == b.name_high && a.name_low == b.name_low)
}

// Equal codes and, for ByteArray, equal n, for Custom, equal size, alignment and name. The derived `==` would compare what a code does not have, too.
pub fn same_datatype(a: Datatype, b: Datatype) -> bool
    ensures { result ≡ same_datatype a b }
{
    if a.code != b.code {
        return false;
    }
    if a.code == 16 {
        return a.n == b.n;
    }
    if a.code == 17 {
        return same_custom(a, b);
    }
    true
}
