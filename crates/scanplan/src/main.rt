// Reads three sheets from standard input, and writes the listing of the plan that they give, or the line of the refusal, to standard output.
#![tactic(auto)]

ghost use Rattle.std.specs.Prelude.{◌≡◌, ◌≤◌, IfErr, IfOk};
ghost use Rattle.common.specs.Logic.{length, take};
ghost use Rattle.common.specs.Refusal.{number_of};
ghost use Rattle.listing.specs.Text.{refusal_line};
ghost use Rattle.scanplan.specs.Printed.{Printed};

use common::Refusal;
use input::read_input;
use listing::lister::{LISTING_SIZE, list_plan, list_refusal};
use sheets::frame::{INPUT_SIZE, read_buffer};
use std::alloc::AllocError;
use std::env::FillError;
use std::io::{Error, IsTerminal, Print};
use std::rt::Env;

// Lists the plan of an input whose first n bytes are in the buffer, at the start of the text, and answers the listing's length. The buffer stands
// beside n, since the input goes on only where they fill it. Where the input is refused, the text stays.
fn list_plan_of(buffer: [u8; INPUT_SIZE], n: usize, text: &mut [u8]) -> Result<usize, Refusal>
    requires { 1996 ≤ length text.old }
    ensures listed { IfOk result (λ k. Printed buffer n (take k text.new) × (k ≤ length text.new)) }
    ensures refused { IfErr result (λ r. Printed buffer n (refusal_line (number_of r)) × (text.new ≡ text.old)) }
{
    let plan = read_buffer(buffer, n)?;
    list_plan(plan, text)
}

// The same, with the line of the refusal where the input is refused.
fn list(buffer: [u8; INPUT_SIZE], n: usize, text: &mut [u8]) -> usize
    requires { 1996 ≤ length text.old }
    ensures { Printed buffer n (take result text.new) × (result ≤ length text.new) }
{
    match list_plan_of(buffer, n, text) {
        Ok(length) => length,
        Err(refusal) => list_refusal(refusal.number(), text),
    }
}

// Says how the program is used.
fn usage(rt: &HostRuntime) {
    let _ = rt.stderr().write_all(
        b"scanplan < SHEETS
Lists the plan that three sheets give, or the number of the refusal. It takes no
argument, and reads the sheets from standard input, which is not a terminal.
nakvisk plan SHEETS reads them from a file and has an exit status.
",
    );
}

// Whether an argument has that place; the program's own name has place 0.
fn has_argument(rt: &HostRuntime, place: usize) -> bool {
    let mut text = [0u8; 1];
    !matches!(rt.arg(place, &mut text), Err(FillError::NotPresent))
}

// The system's words for an error, without its number.
fn words_of(rt: &HostRuntime, error: Error) -> Result<String, AllocError> {
    let text = format!(in rt.alloc(); "{error}")?;
    match text.as_str().split_once(" (os error ") {
        Some((words, _)) => String::from_str(rt.alloc(), words),
        None => Ok(text),
    }
}

// Says what failed, and why; only what, where memory is out.
fn fail(rt: &HostRuntime, what: &str, error: Error) {
    let _ = match words_of(rt, error) {
        Ok(words) => rt.eprintln(format_args!("{what}: {words}")),
        Err(_) => rt.eprintln(what),
    };
}

fn main(rt: HostRuntime) {
    if !has_argument(&rt, 0) || has_argument(&rt, 1) || rt.stdin().is_terminal() {
        usage(&rt);
        return;
    }
    let mut input = [0u8; INPUT_SIZE];
    let n = match read_input(&mut rt.stdin(), &mut input) {
        Ok(n) => n,
        Err(error) => {
            fail(&rt, "scanplan: reading standard input", error);
            return;
        }
    };
    let mut text = [0u8; LISTING_SIZE];
    let length = list(input, n, &mut text);
    if let Err(error) = rt.write_all(&text[..length]) {
        fail(&rt, "scanplan: writing standard output", error);
    }
}
