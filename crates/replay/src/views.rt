// The calls on views of one attribute.
use super::text::{Line, Result};
use raw_attribute_view::{Part, RawAttributeView, ViewShape, read_point};

impl Line<'_> {
    fn place(&mut self) -> Result<usize> {
        Ok(self.hex(b' ')? as usize)
    }

    // Offset, stride and attribute size of a view.
    fn shape(&mut self) -> Result<ViewShape> {
        Ok(ViewShape {
            offset: self.place()?,
            stride: self.place()?,
            size: self.place()?,
        })
    }
}

// The shape of a view, a point, a value, the lent bytes; the bytes after the call.
pub(crate) fn written(line: &mut Line) -> Result<()> {
    let shape = line.shape()?;
    let i = line.place()?;
    let value = line.part()?;
    let mut point_data = line.part()?;
    let answer = shape.write(point_data.as_mut_slice(), i, value.as_slice());
    line.due_left(answer, point_data.as_slice())
}

// A layout, a place in it, the count, a point, the lent bytes; where the part starts, and its size, 0 each beside a refusal.
pub(crate) fn shown(line: &mut Line) -> Result<()> {
    let layout = line.layout()?;
    let place = line.place()?;
    let count = line.number::<u32>(b' ')?;
    let i = line.place()?;
    let point_data = line.part()?;
    let shown = read_point(layout, place, count, point_data.as_slice(), i);
    let part = shown.unwrap_or(Part { start: 0, size: 0 });
    line.due_answer(shown.map(|_| ()))?;
    line.due(part.start as u64)?;
    line.due(part.size as u64)
}

// The shape of a view, a point, the lent bytes; the point's part, none beside a refusal.
pub(crate) fn seen(line: &mut Line) -> Result<()> {
    let shape = line.shape()?;
    let i = line.place()?;
    let point_data = line.part()?;
    let view = RawAttributeView {
        point_data: point_data.as_slice(),
        shape,
    };
    match view.read(i) {
        Ok(part) => line.due_left(Ok(()), part),
        Err(refusal) => line.due_left(Err(refusal), &[]),
    }
}
