// The command nakvisk. It ends with the status that `nakvisk_command` answers.
#![tactic(auto)]

ghost use Rattle.std.specs.Process.{exit_status};
ghost use Rattle.usage.specs.Status.{IsStatus};

mod about;
mod block;
mod convert;
mod errors;
mod failure;
mod help;
mod lines;
mod list;
mod losses;
mod names;
mod places;
mod points;
mod progress;
mod request;
mod sheets_file;
mod source;
mod target;

use request::run;
use std::process::ExitCode;
use usage::status::status_number;

// Runs the command that the process's arguments ask for, and answers the exit status: 0 done, 1 refused, 2 trouble with a file, 3 numbers
// would be lost, 64 wrong usage.
pub fn nakvisk_command(rt: &HostRuntime) -> u32
    ensures { IsStatus result }
{
    status_number(run(rt))
}

// The status that the process ends with.
fn exit_code(rt: &HostRuntime) -> ExitCode
    ensures { IsStatus (exit_status result) }
{
    ExitCode::from(nakvisk_command(rt) as u8)
}

fn main(rt: HostRuntime) -> ExitCode {
    exit_code(&rt)
}
