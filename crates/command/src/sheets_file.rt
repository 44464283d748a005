// The sheets, in a file or on standard input, and the plan that they give.
ghost use Rattle.command.specs.Ends.{EndOfWhole, ended};
ghost use Rattle.std.specs.Io.{ReadsAtMost};

use super::failure::{Failure, failed, refused};
use super::lines::tell;
use super::names::name_of;
use input::read_input;
use open_file::{About, of_descriptor, of_standard_input};
use plans::plan::Plan;
use refusal_place::place_in_buffer;
use sheets::frame::{INPUT_SIZE, read_buffer};
use std::fs::File;
use std::io;

// The open sheets: standard input, or a file.
#[derive(Drop)]
pub(crate) enum Sheets {
    Input,
    Opened(File),
}

// Opens the sheets of a file, or standard input where the name is -.
pub(crate) fn open_sheets(rt: &HostRuntime, name: &str) -> Result<Sheets, Failure> {
    if name == "-" {
        return Ok(Sheets::Input);
    }
    let file = File::open(rt, name).map_err(|e| failed(rt, "cannot open", name, e))?;
    Ok(Sheets::Opened(file))
}

// What the system tells of the open sheets, if anything.
pub(crate) fn about_sheets(rt: &HostRuntime, sheets: &Sheets) -> Option<About> {
    match sheets {
        Sheets::Input => of_standard_input(rt),
        Sheets::Opened(file) => of_descriptor(file),
    }
}

// Reads the open sheets.
fn read_sheets(rt: &HostRuntime, sheets: &Sheets, input: &mut [u8]) -> io::Result<usize>
    ensures { ReadsAtMost result input.new }
{
    match sheets {
        Sheets::Input => read_input(&mut rt.stdin(), input),
        Sheets::Opened(file) => {
            let mut reader = file;
            read_input(&mut reader, input)
        }
    }
}

// The plan of what was read from the file of that name. The whole buffer is handed on: by its size a full one is told.
fn plan_of(rt: &HostRuntime, input: [u8; INPUT_SIZE], n: usize, name: &str) -> Result<Plan, Failure>
    ensures { EndOfWhole input n (ended result) }
{
    read_buffer(input, n).map_err(|refusal| refused(rt, name, refusal, place_in_buffer(input, n)))
}

// The plan of the open sheets of that name.
pub(crate) fn plan_in(rt: &HostRuntime, sheets: &Sheets, name: &str) -> Result<Plan, Failure> {
    let mut input = [0u8; INPUT_SIZE];
    match read_sheets(rt, sheets, &mut input) {
        Ok(n) => plan_of(rt, input, n, name),
        Err(e) => Err(failed(rt, "cannot read", name, e)),
    }
}

// Whether a mapping names the target attribute at the place.
fn is_mapped(plan: &Plan, place: usize) -> bool {
    let mut mappings = plan.mappings.iter().take(plan.count as usize);
    mappings.any(|mapping| mapping.target as usize == place)
}

// Says which target attributes no mapping names.
pub(crate) fn warn_of_unmapped(rt: &HostRuntime, plan: &Plan) {
    let attributes = plan
        .target
        .attributes
        .iter()
        .take(plan.target.count as usize);
    for (place, member) in attributes.enumerate() {
        if !is_mapped(plan, place) {
            let name = name_of(&member.attribute_definition);
            tell(
                rt,
                format_args!(
                    "no mapping names the target attribute \"{name}\": its bytes are zero in a converted file"
                ),
            );
        }
    }
}
