// The conversions, of a range of points and of a single point, and the listing of a plan.
use super::text::{Line, Part, Result, agree};
use buffer_conversion::convert::{
    convert_by_mapping, convert_into_range, convert_into_range_uncounted,
};
use listing::lister::{list_plan, list_refusal};
use plans::plan::Plan;
use point_buffer::{PointRange, Storage};
use raw_point_converter::convert_point;

// What a conversion is called with.
#[derive(Drop)]
struct Conversion {
    plan: Plan,
    from: PointRange,
    to: PointRange,
    source: Part,
    target: Part,
}

impl Line<'_> {
    // START-END/COUNT, and before it | where the points are columns.
    fn range(&mut self) -> Result<PointRange> {
        let storage = if self.takes(b'|') {
            Storage::Columns
        } else {
            Storage::Interleaved
        };
        let start = self.number::<u32>(b'-')?;
        let end = self.number::<u32>(b'/')?;
        let count = self.number::<u32>(b' ')?;
        Ok(PointRange {
            storage,
            count,
            start,
            end,
        })
    }

    // A plan, the two ranges, the source and the target.
    fn conversion(&mut self) -> Result<Conversion> {
        Ok(Conversion {
            plan: self.plan()?,
            from: self.range()?,
            to: self.range()?,
            source: self.part()?,
            target: self.part()?,
        })
    }

    // A number for each mapping; the others are 0.
    fn due_numbers(&mut self, numbers: &[u64; 32], count: usize) -> Result<()> {
        for (k, n) in numbers.iter().enumerate() {
            if k < count {
                self.due(*n)?;
            } else {
                agree(*n == 0)?;
            }
        }
        Ok(())
    }
}

// The answer and the target's bytes. The conversion that counts nothing gives the same as the one that counts, whatever was lost.
pub(crate) fn convert(line: &mut Line) -> Result<()> {
    let call = line.conversion()?;
    let mut target = call.target;
    let answer = convert_into_range_uncounted(
        call.plan,
        call.source.as_slice(),
        call.from,
        target.as_mut_slice(),
        call.to,
    );
    let mut counted = call.target;
    let done = convert_into_range(
        call.plan,
        call.source.as_slice(),
        call.from,
        counted.as_mut_slice(),
        call.to,
    );
    agree(done.map(|_| ()) == answer && counted.as_slice() == target.as_slice())?;
    line.due_left(answer, target.as_slice())
}

// Between the answer and the bytes how many components were lost.
pub(crate) fn lost(line: &mut Line) -> Result<()> {
    let call = line.conversion()?;
    let mut target = call.target;
    let done = convert_into_range(
        call.plan,
        call.source.as_slice(),
        call.from,
        target.as_mut_slice(),
        call.to,
    );
    line.due_lost(done, target.as_slice())
}

// Between them how many each mapping lost, zeros beside a refusal.
pub(crate) fn each(line: &mut Line) -> Result<()> {
    let call = line.conversion()?;
    let mut target = call.target;
    let done = convert_by_mapping(
        call.plan,
        call.source.as_slice(),
        call.from,
        target.as_mut_slice(),
        call.to,
    );
    line.due_answer(done.map(|_| ()))?;
    line.due_numbers(&done.unwrap_or([0; 32]), usize::from(call.plan.count))?;
    line.due_bytes(target.as_slice())
}

// Two layouts, the source point and the target point.
pub(crate) fn point(line: &mut Line) -> Result<()> {
    let from = line.layout()?;
    let to = line.layout()?;
    let source = line.part()?;
    let mut target = line.part()?;
    let answer = convert_point(from, to, source.as_slice(), target.as_mut_slice());
    line.due_left(answer, target.as_slice())
}

// ---- listings

// A plan and the text that is lent; the listing's length, and the text after the call.
pub(crate) fn list(line: &mut Line) -> Result<()> {
    let plan = line.plan()?;
    let mut text = line.part()?;
    let listed = list_plan(plan, text.as_mut_slice());
    line.equals()?;
    line.due_outcome(listed.map(|length| length as u64))?;
    line.due_bytes(text.as_slice())
}

// The number of a refusal and the text that is lent; the line's length, and the text after the call.
pub(crate) fn refusal(line: &mut Line) -> Result<()> {
    let number = line.number::<u8>(b' ')?;
    let mut text = line.part()?;
    let length = list_refusal(number, text.as_mut_slice());
    line.equals()?;
    line.due(length as u64)?;
    line.due_bytes(text.as_slice())
}
