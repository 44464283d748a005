// The calls on datatypes: what a code stands for, the pair of two, a cast of one number and of one attribute.
use super::text::{Failure, Line, Part, Result, agree};
use attribute_conversion::attribute::{cast_attribute, cast_attribute_uncounted};
use datatype::datatype::{Datatype, PointAttributeDataType, Properties, datatype_of};
use pairs::pair::{Pair, pair_of};
use scalar_casts::scalar::{Scalar, cast_pattern};

// ---- datatypes

// Its code in the notation of the lines; 256 and n for a ByteArray.
fn code_of(datatype: PointAttributeDataType) -> u64 {
    match datatype {
        PointAttributeDataType::U8 => 0,
        PointAttributeDataType::I8 => 1,
        PointAttributeDataType::U16 => 2,
        PointAttributeDataType::I16 => 3,
        PointAttributeDataType::U32 => 4,
        PointAttributeDataType::I32 => 5,
        PointAttributeDataType::U64 => 6,
        PointAttributeDataType::I64 => 7,
        PointAttributeDataType::F32 => 8,
        PointAttributeDataType::F64 => 9,
        PointAttributeDataType::Vec3u8 => 10,
        PointAttributeDataType::Vec3u16 => 11,
        PointAttributeDataType::Vec3f32 => 12,
        PointAttributeDataType::Vec3i32 => 13,
        PointAttributeDataType::Vec3f64 => 14,
        PointAttributeDataType::Vec4u8 => 15,
        PointAttributeDataType::ByteArray(n) => 256 + u64::from(n),
        PointAttributeDataType::Custom { .. } => 17,
    }
}

impl Line<'_> {
    // The code, the size and the alignment, and a Custom's name. A Custom has that size and that alignment.
    fn due_properties(&mut self, known: Properties) -> Result<()> {
        self.due(code_of(known.datatype))?;
        self.due(u64::from(known.size))?;
        self.due(u64::from(known.alignment))?;
        if let PointAttributeDataType::Custom {
            size: own,
            min_alignment,
            name_high,
            name_low,
        } = known.datatype
        {
            agree(own == known.size && min_alignment == known.alignment)?;
            agree(self.hex(b' ')? == name_high)?;
            agree(self.hex(b' ')? == name_low)?;
        }
        Ok(())
    }
}

// A datatype.
pub(crate) fn datatype(line: &mut Line) -> Result<()> {
    let datatype = line.datatype(b' ')?;
    let known = datatype_of(datatype);
    line.due_answer(known.map(|_| ()))?;
    known.map_or(Ok(()), |known| line.due_properties(known))
}

fn word_of(pair: Pair) -> &'static [u8] {
    match pair {
        Pair::Copy => b"copy",
        Pair::Cast => b"cast",
        Pair::Nothing => b"none",
    }
}

// Two datatypes.
pub(crate) fn pair(line: &mut Line) -> Result<()> {
    let from = line.datatype(b' ')?;
    let to = line.datatype(b' ')?;
    line.equals()?;
    agree(line.word()? == word_of(pair_of(from, to)))
}

// ---- casts

impl Line<'_> {
    fn scalar(&mut self) -> Result<Scalar> {
        match self.number::<u8>(b' ')? {
            0 => Ok(Scalar::U8),
            1 => Ok(Scalar::I8),
            2 => Ok(Scalar::U16),
            3 => Ok(Scalar::I16),
            4 => Ok(Scalar::U32),
            5 => Ok(Scalar::I32),
            6 => Ok(Scalar::U64),
            7 => Ok(Scalar::I64),
            8 => Ok(Scalar::F32),
            9 => Ok(Scalar::F64),
            _ => Err(Failure::Differs),
        }
    }
}

// Two codes and a pattern.
pub(crate) fn scalar(line: &mut Line) -> Result<()> {
    let from = line.scalar()?;
    let to = line.scalar()?;
    let pattern = line.hex(b' ')?;
    line.equals()?;
    agree(line.hex(b' ')? == cast_pattern(from, to, pattern))
}

// What is due where nothing is cast.
const NOT_CAST: u8 = 1;

impl Line<'_> {
    // Two datatypes, the source and the target.
    fn cast(&mut self) -> Result<(Datatype, Datatype, Part, Part)> {
        let from = self.datatype(b' ')?;
        let to = self.datatype(b' ')?;
        Ok((from, to, self.part()?, self.part()?))
    }
}

// The answer, and the target's bytes.
pub(crate) fn uncounted(line: &mut Line) -> Result<()> {
    let (from, to, source, mut target) = line.cast()?;
    let is_cast = cast_attribute_uncounted(from, to, source.as_slice(), target.as_mut_slice());
    line.due_number(if is_cast { 0 } else { NOT_CAST })?;
    line.due_bytes(target.as_slice())
}

// Between them how many components were lost.
pub(crate) fn counted(line: &mut Line) -> Result<()> {
    let (from, to, source, mut target) = line.cast()?;
    match cast_attribute(from, to, source.as_slice(), target.as_mut_slice()) {
        Some(lost) => line.due_lost(Ok(lost), target.as_slice()),
        None => {
            line.due_number(NOT_CAST)?;
            line.due_bytes(target.as_slice())
        }
    }
}
