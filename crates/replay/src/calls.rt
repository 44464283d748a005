// The calls by their names.
use super::text::{Failure, Line, Result};
use super::{casts, conversions, makers, places, plan, views};

// Makes the call that the line names, with the line's inputs; what it gives has to be what is due.
fn replay(line: &mut Line) -> Result<()> {
    match line.word()? {
        // makers of layouts, and lookups
        b"add" => makers::add(line),
        b"given" => makers::given(line),
        b"members" => makers::lent(line),
        b"sheet" => makers::sheet(line),
        b"lookup" => makers::lookup(line),
        b"compare" => makers::compare(line),
        // datatypes
        b"datatype" => casts::datatype(line),
        b"pair" => casts::pair(line),
        b"scalar" => casts::scalar(line),
        b"cast" => casts::uncounted(line),
        b"castlost" => casts::counted(line),
        // plans
        b"plan" => plan::by_name(line),
        b"default" => plan::with_default(line),
        b"custom" => plan::custom(line),
        b"mapping" => plan::mapping(line),
        b"sheets" => plan::input(line),
        b"place" => places::input(line),
        b"list" => conversions::list(line),
        b"refusal" => conversions::refusal(line),
        // points
        b"convert" => conversions::convert(line),
        b"lost" => conversions::lost(line),
        b"each" => conversions::each(line),
        b"point" => conversions::point(line),
        b"view" => views::shown(line),
        b"fields" => views::seen(line),
        b"write" => views::written(line),
        _ => Err(Failure::Differs),
    }
}

// Whether a line says what the call gives.
pub(crate) fn agrees(text: &[u8]) -> bool {
    let mut line = Line::new(text);
    replay(&mut line).is_ok() && line.is_read()
}
