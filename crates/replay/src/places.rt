// The call that tells where the refusal of three sheets comes from.
use super::text::{Line, Result};
use refusal_place::{RefusalPlace, SheetKind, refusal_place};

// Its number in the notation of the lines.
fn number_of(sheet: SheetKind) -> u8 {
    match sheet {
        SheetKind::Source => 0,
        SheetKind::Target => 1,
        SheetKind::Mapping => 2,
    }
}

// The kind, the sheet and the place.
fn numbers_of(told: Option<RefusalPlace>) -> (u64, u8, u8) {
    match told {
        None => (0, 0, 0),
        Some(RefusalPlace::Input) => (1, 0, 0),
        Some(RefusalPlace::Sheet(sheet)) => (2, number_of(sheet), 0),
        Some(RefusalPlace::Attribute { sheet, place }) => (3, number_of(sheet), place),
        Some(RefusalPlace::Target(place)) => (4, 2, place),
        Some(RefusalPlace::Line(place)) => (5, 2, place),
    }
}

// Three sheets in one input.
pub(crate) fn input(line: &mut Line) -> Result<()> {
    let sheets = line.part()?;
    let (kind, sheet, place) = numbers_of(refusal_place(sheets.as_slice()));
    line.equals()?;
    line.due(kind)?;
    line.due(u64::from(sheet))?;
    line.due(u64::from(place))
}
