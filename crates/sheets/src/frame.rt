// Three sheets in one input, each after its length: framed first, then each taken through all its checks.
ghost use Rattle.std.specs.Prelude.{◌≡◌, ◌≤◌, ◌+◌, ◌*◌, IfOk};
ghost use Rattle.common.specs.Logic.{length};
ghost use Rattle.common.specs.Refusal.{outcome_of};
ghost use Rattle.format.specs.Format.{read_by, sheet_by};
ghost use Rattle.sheets.specs.Frame.{frame, frame_format, framed, plan_of_sheets, three_sheets};
ghost use Rattle.sheets.specs.Records.{framed_by, LieIn, OfWhole, part_read, sheets_answer};

use super::mapping_sheet::read_mapping_sheet;
use common::Refusal;
use layout_sheets::layout_sheet::read_layout_sheet;
use layout_sheets::sheet_reader::SheetReader;
use plans::plan::Plan;

// The sheet whose length stands at a byte, refused where the input is short.
fn read_part(input: &[u8], at: usize) -> Result<&[u8], Refusal>
    requires { at ≤ 4096 }
    ensures says { part_read at result ≡ read_by framed input.now (8 * at) }
    ensures inside { IfOk result (λ part. at + 2 + length part.now ≤ length input.now) }
    ensures lies { IfOk result (λ part. part.ref_ptr ≡ (input.entry.ref_ptr.0, at + 2 + input.entry.ref_ptr.1)) }
{
    let length = SheetReader::new(input, (8 * at) as u32).field(16)?;
    let start = at + 2;
    let end = start + length as usize;
    if input.len() < end {
        return Err(Refusal::SheetEnds);
    }
    Ok(&input[start..end])
}

// The three sheets of an input.
#[derive(Clone, Copy)]
pub struct Sheets<'a> {
    pub source: &'a [u8],
    pub target: &'a [u8],
    pub mapping: &'a [u8],
}

// The three sheets of an input of at most 4,096 bytes: refused where it is short, or where a byte follows.
fn read_parts(input: &[u8]) -> Result<Sheets<'_>, Refusal>
    requires { length input.now ≤ 4096 }
    ensures says { framed_by result ≡ sheet_by frame_format input.now }
    ensures lie { IfOk result (LieIn input.entry) }
{
    let source = read_part(input, 0)?;
    let second = 2 + source.len();
    let target = read_part(input, second)?;
    let third = second + 2 + target.len();
    let mapping = read_part(input, third)?;
    if third + 2 + mapping.len() < input.len() {
        return Err(Refusal::NotAtEnd);
    }
    Ok(Sheets {
        source,
        target,
        mapping,
    })
}

// The three sheets of an input, where they lie in it, or the refusal.
pub fn read_frame(input: &[u8]) -> Result<Sheets<'_>, Refusal>
    ensures says { framed_by result ≡ frame input.now }
    ensures lie { IfOk result (LieIn input.entry) }
{
    if 4096 < input.len() {
        return Err(Refusal::NotAtEnd);
    }
    read_parts(input)
}

// The plan that three sheets give, each taken through all its checks in turn, or the first refusal.
pub fn plan_of_sheets(source: &[u8], target: &[u8], mapping: &[u8]) -> Result<Plan, Refusal>
    ensures { outcome_of result ≡ sheets_answer (plan_of_sheets (record { source = source.now; target = target.now; mapping = mapping.now })) }
{
    let source = read_layout_sheet(source)?;
    let target = read_layout_sheet(target)?;
    read_mapping_sheet(source, target, mapping)
}

// The plan that an input of three sheets gives, or the first refusal.
pub fn read_sheets(input: &[u8]) -> Result<Plan, Refusal>
    ensures { outcome_of result ≡ sheets_answer (three_sheets input.now) }
{
    let sheets = read_frame(input)?;
    plan_of_sheets(sheets.source, sheets.target, sheets.mapping)
}

// One byte more than the 4,096 that an input may have: an input that fills a buffer of so many is too long, wherever it ends.
pub const INPUT_SIZE: usize = 4097;

// The plan of an input whose first n bytes were read into the buffer, and which goes on only where they fill it.
// It takes the whole buffer and no slice: by its size a full one is told from an input that ends there.
pub fn read_buffer(buffer: [u8; INPUT_SIZE], n: usize) -> Result<Plan, Refusal>
    ensures { OfWhole buffer n (outcome_of result) }
{
    if n < INPUT_SIZE {
        return read_sheets(&buffer[..n]);
    }
    read_sheets(&buffer)
}
