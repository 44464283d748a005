// Plans in a line, whether two plans are the same, and the calls that make plans. A plan is {LAYOUT LAYOUT COUNT} with ,SOURCE>TARGET after
// the count for each mapping, or the bytes of three sheets, each after its length.
use super::layouts::same_layout;
use super::text::{Failure, Line, Outcome, Result, agree};
use layout::point_layout::PointLayout;
use plans::plan::{Mapping, Plan};
use sheets::frame::read_sheets;
use sheets::mapping_sheet::read_mapping_sheet;

const NO_MAPPINGS: [Mapping; 32] = [Mapping {
    source: 0,
    target: 0,
}; 32];

fn empty_plan() -> Plan {
    Plan {
        source: PointLayout::default(),
        target: PointLayout::default(),
        mappings: NO_MAPPINGS,
        count: 0,
    }
}

// ---- reading

impl Line<'_> {
    fn mapping(&mut self) -> Result<Mapping> {
        Ok(Mapping {
            source: self.number::<u8>(b'>')?,
            target: self.plain::<u8>()?,
        })
    }

    // At most 32, each after a comma.
    fn mappings(&mut self) -> Result<[Mapping; 32]> {
        let mut mappings = NO_MAPPINGS;
        for mapping in &mut mappings {
            if !self.takes(b',') {
                break;
            }
            *mapping = self.mapping()?;
        }
        Ok(mappings)
    }

    // After the brace.
    fn record(&mut self) -> Result<Plan> {
        let source = self.layout()?;
        let target = self.layout()?;
        let count = self.plain::<u8>()?;
        let mappings = self.mappings()?;
        self.past(b'}')?;
        self.past(b' ')?;
        Ok(Plan {
            source,
            target,
            mappings,
            count,
        })
    }

    // Three sheets in one input, and the plan that they give.
    fn sheets(&mut self) -> Result<Outcome<Plan>> {
        Ok(read_sheets(self.part()?.as_slice()))
    }

    // Where the sheets are refused there is no plan.
    pub(crate) fn plan(&mut self) -> Result<Plan> {
        if self.takes(b'{') {
            return self.record();
        }
        self.sheets()?.map_err(|_| Failure::Differs)
    }

    // The answer, and the plan beside it in braces, the empty one beside a refusal.
    fn due_plan(&mut self, made: Outcome<Plan>) -> Result<()> {
        self.due_answer(made.map(|_| ()))?;
        self.past(b'{')?;
        let due = self.record()?;
        agree(same_plan(&made.unwrap_or(empty_plan()), &due))
    }
}

// ---- comparing

// Past its count nothing is looked at, which a derive would compare.
fn same_plan(a: &Plan, b: &Plan) -> bool {
    same_layout(&a.source, &b.source)
        && same_layout(&a.target, &b.target)
        && a.count == b.count
        && a.mappings
            .iter()
            .zip(&b.mappings)
            .take(usize::from(a.count))
            .all(|(x, y)| (x.source, x.target) == (y.source, y.target))
}

// ---- the calls

// Two layouts. The two differ in the call that they make.
pub(crate) fn by_name(line: &mut Line) -> Result<()> {
    let source = line.layout()?;
    let target = line.layout()?;
    line.due_plan(Plan::for_layouts(source, target))
}

// The same where missing names are passed over.
pub(crate) fn with_default(line: &mut Line) -> Result<()> {
    let source = line.layout()?;
    let target = line.layout()?;
    line.due_plan(Plan::for_layouts_with_default(source, target))
}

// A plan, and the mapping.
pub(crate) fn custom(line: &mut Line) -> Result<()> {
    let plan = line.plan()?;
    let mapping = line.mapping()?;
    line.past(b' ')?;
    line.due_plan(plan.set_custom_mapping(mapping.source, mapping.target))
}

// Two layouts and a mapping sheet.
pub(crate) fn mapping(line: &mut Line) -> Result<()> {
    let source = line.layout()?;
    let target = line.layout()?;
    let sheet = line.part()?;
    line.due_plan(read_mapping_sheet(source, target, sheet.as_slice()))
}

// Three sheets in one input.
pub(crate) fn input(line: &mut Line) -> Result<()> {
    let made = line.sheets()?;
    line.due_plan(made)
}
