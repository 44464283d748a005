// Mapping sheets: read front to back to the first defect, then made into a plan between two layouts.
ghost use Rattle.std.specs.Prelude.{◌≡◌, ◌≤◌, IfOk};
ghost use Rattle.common.specs.Refusal.{answer, answer_of, answered, outcome_of};
ghost use Rattle.format.specs.Format.{bits, times};
ghost use Rattle.layout.specs.Records.{layout_of};
ghost use Rattle.layout_sheets.specs.Reader.{coded, given, given_as, reads};
ghost use Rattle.plans.specs.Makers.{layouts_lines};
ghost use Rattle.plans.specs.Records.{filled, plan_of};
ghost use Rattle.sheets.specs.Mapping.{by_name, first_plan, lines_to, mapping_sheet, plan_from, set_all, sheet_line};
ghost use Rattle.sheets.specs.Records.{contents_of, Emptied, FewLines, kind_of, mapping_answer};

use common::Refusal;
use layout::point_layout::PointLayout;
use layout_sheets::sheet_reader::SheetReader;
use plans::plan::{Mapping, MissingSource, Plan};

// ---- the lines

// A line: its source place and its target place.
fn read_line(reader: &mut SheetReader) -> Result<Mapping, Refusal>
    ensures { given result reader.new ≡ reads sheet_line reader.old }
{
    let source = reader.field(5)?;
    let target = reader.field(5)?;
    Ok(Mapping {
        source: source as u8,
        target: target as u8,
    })
}

fn read_lines(reader: &mut SheetReader, count: usize) -> Result<[Mapping; 32], Refusal>
    requires { count ≤ 32 }
    ensures { given result reader.new ≡ reads (coded filled (times sheet_line count)) reader.old }
{
    let mut lines = [Mapping {
        source: 0,
        target: 0,
    }; 32];
    for i in 0..count {
        lines[i] = read_line(reader)?;
    }
    Ok(lines)
}

// ---- the sheet

// What a sheet says. Without heap the lines are an array, of which the first count are listed.
#[derive(Clone, Copy)]
struct Contents {
    missing: MissingSource,
    lines: [Mapping; 32],
    count: usize,
}

fn read_missing(reader: &mut SheetReader) -> Result<MissingSource, Refusal>
    ensures { given_as kind_of result reader.new ≡ reads (bits 1) reader.old }
{
    if reader.field(1)? == 0 {
        Ok(MissingSource::Refuse)
    } else {
        Ok(MissingSource::PassOver)
    }
}

// The sheet as far as its first lines.
fn read_contents(reader: &mut SheetReader, most: u8) -> Result<Contents, Refusal>
    ensures says { given_as contents_of result reader.new ≡ reads (lines_to most) reader.old }
    ensures few { IfOk result FewLines }
{
    let listed = reader.field_from(6, 0, 32, Refusal::TooMany)?;
    let count = listed.min(most as u16) as usize;
    let missing = read_missing(reader)?;
    let lines = read_lines(reader, count)?;
    Ok(Contents {
        missing,
        lines,
        count,
    })
}

// ---- the plan

// The mappings by name.
fn by_name(
    source: PointLayout,
    target: PointLayout,
    missing: MissingSource,
) -> Result<Plan, Refusal>
    ensures { outcome_of result ≡ mapping_answer source target (by_name (kind_of missing) (layout_of source) (layout_of target)) }
{
    match missing {
        MissingSource::Refuse => Plan::for_layouts(source, target),
        MissingSource::PassOver => Plan::for_layouts_with_default(source, target),
    }
}

// The plan with each line in turn; the first refusal stops.
fn set_all(plan: Plan, lines: &[Mapping]) -> Result<Plan, Refusal>
    requires { Emptied plan }
    ensures { outcome_of result ≡ mapping_answer plan.source plan.target (set_all (plan_of plan) lines.now) }
{
    let mut made = plan;
    for line in lines {
        made = made.set_custom_mapping(line.source, line.target)?;
    }
    Ok(made)
}

// The plan that the sheet's contents give.
fn plan_from(source: PointLayout, target: PointLayout, contents: &Contents) -> Result<Plan, Refusal>
    requires { FewLines contents.now }
    ensures { outcome_of result ≡ mapping_answer source target (plan_from (layout_of source) (layout_of target) (contents_of contents.now)) }
{
    let plan = by_name(source, target, contents.missing)?;
    set_all(plan, &contents.lines[..contents.count])
}

// 1 of both layouts.
fn check_layouts(source: PointLayout, target: PointLayout) -> Result<(), Refusal>
    ensures { answered result ≡ answer (layouts_lines (layout_of source) (layout_of target)) }
{
    if !source.sound() || !target.sound() {
        return Err(Refusal::Unsound);
    }
    Ok(())
}

// The plan that a mapping sheet gives between two layouts, or the first refusal: 1 of both layouts before the sheet is read.
pub fn read_mapping_sheet(
    source: PointLayout,
    target: PointLayout,
    sheet: &[u8],
) -> Result<Plan, Refusal>
    ensures { outcome_of result ≡ mapping_answer source target (mapping_sheet (layout_of source) (layout_of target) sheet.now) }
{
    check_layouts(source, target)?;
    let mut reader = SheetReader::new(sheet, 0);
    let contents = read_contents(&mut reader, 32)?;
    if !reader.ends() {
        return Err(Refusal::NotAtEnd);
    }
    plan_from(source, target, &contents)
}

// The answer to a mapping sheet's first lines between two layouts, whatever follows them.
pub fn check_first_lines(
    source: PointLayout,
    target: PointLayout,
    sheet: &[u8],
    most: u8,
) -> Result<(), Refusal>
    ensures { answered result ≡ answer_of (first_plan (layout_of source) (layout_of target) most sheet.now) }
{
    check_layouts(source, target)?;
    let mut reader = SheetReader::new(sheet, 0);
    let contents = read_contents(&mut reader, most)?;
    plan_from(source, target, &contents)?;
    Ok(())
}
