// Datatypes, definitions and layouts in a line, and whether two layouts are the same. A datatype is CODE, CODE.N or CODE.N.ALIGNMENT.HIGH.LOW, a
// definition NAME:DATATYPE, a layout SIZE/ALIGNMENT/COUNT and ,DEFINITION@OFFSET for each attribute.
use super::text::{Line, Outcome, Result, agree};
use datatype::datatype::Datatype;
use layout::point_layout::{PointAttributeDefinition, PointAttributeMember, PointLayout};

// ---- reading

impl Line<'_> {
    // The name of a Custom in hex.
    pub(crate) fn datatype(&mut self, end: u8) -> Result<Datatype> {
        let code = self.plain::<u8>()?;
        if !self.takes(b'.') {
            self.past(end)?;
            return Ok(Datatype::plain(code));
        }
        let n = self.plain::<u16>()?;
        let datatype = Datatype::byte_array(n).with_code(code);
        if !self.takes(b'.') {
            self.past(end)?;
            return Ok(datatype);
        }
        Ok(Datatype {
            alignment: self.number::<u8>(b'.')?,
            name_high: self.hex(b'.')?,
            name_low: self.hex(end)?,
            ..datatype
        })
    }

    // Of a name of more than 31 bytes the first 31 are kept, beside its length.
    pub(crate) fn definition(&mut self, end: u8) -> Result<PointAttributeDefinition> {
        let mut name = [0u8; 31];
        let name_len = self.bytes(&mut name, 255, b':')? as u8;
        let datatype = self.datatype(end)?;
        Ok(PointAttributeDefinition {
            name,
            name_len,
            datatype,
        })
    }

    pub(crate) fn member(&mut self) -> Result<PointAttributeMember> {
        Ok(PointAttributeMember {
            attribute_definition: self.definition(b'@')?,
            offset: self.plain::<u16>()?,
        })
    }

    // At most 32, each after a comma.
    fn members(&mut self) -> Result<[PointAttributeMember; 32]> {
        let mut members = PointLayout::default().attributes;
        for member in &mut members {
            if !self.takes(b',') {
                break;
            }
            *member = self.member()?;
        }
        Ok(members)
    }

    pub(crate) fn layout(&mut self) -> Result<PointLayout> {
        let size = self.number::<u16>(b'/')?;
        let alignment = self.number::<u16>(b'/')?;
        let count = self.plain::<u8>()?;
        let attributes = self.members()?;
        self.past(b' ')?;
        Ok(PointLayout {
            attributes,
            count,
            size,
            alignment,
        })
    }
}

// ---- comparing

// Past its count nothing is looked at, which a derive would compare.
pub(crate) fn same_layout(a: &PointLayout, b: &PointLayout) -> bool {
    (a.count, a.size, a.alignment) == (b.count, b.size, b.alignment)
        && a.attributes
            .iter()
            .zip(&b.attributes)
            .take(usize::from(a.count))
            .all(|(x, y)| x == y)
}

// ---- what is due

impl Line<'_> {
    // The answer, and the layout beside it, the empty one beside a refusal.
    pub(crate) fn due_layout(&mut self, made: Outcome<PointLayout>) -> Result<()> {
        self.due_answer(made.map(|_| ()))?;
        let due = self.layout()?;
        agree(same_layout(&made.unwrap_or(PointLayout::default()), &due))
    }
}
