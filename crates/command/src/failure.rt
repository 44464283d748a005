// Why a run ends without having done what it was asked for. What there is to say of it is said where it fails.
ghost use Rattle.std.specs.Prelude.{◌≡◌};
ghost use Rattle.command.specs.Ends.{status_of};
ghost use Rattle.usage.specs.declared.status.Status.{Status};

use super::errors::Reason;
use super::lines::tell;
use super::places::{Place, Sentence};
use common::Refusal;
use refusal_place::RefusalPlace;
use std::fmt::Display;
use std::io::Error;
use usage::status::Status;

#[derive(Clone, Copy)]
pub(crate) enum Failure {
    // a file is refused
    Refused,
    // a file cannot be read or written, or is not what it has to be
    Trouble,
    // numbers would be lost, and the options forbid it
    Losing,
    WrongUsage,
}

impl Failure {
    // The status that the run ends with.
    pub(crate) fn status(self) -> Status
        ensures { result ≡ status_of self }
    {
        match self {
            Failure::Refused => Status::Refused,
            Failure::Trouble => Status::Trouble,
            Failure::Losing => Status::Lost,
            Failure::WrongUsage => Status::Wrong,
        }
    }
}

// Says that a file is refused, and where in it the refusal comes from.
pub(crate) fn refused(
    rt: &HostRuntime,
    file: &str,
    refusal: Refusal,
    place: Option<RefusalPlace>,
) -> Failure
    ensures { status_of result ≡ Status.Refused }
{
    let number = refusal.number();
    let sentence = Sentence(number);
    match place {
        Some(place) => {
            let place = Place(place);
            tell(
                rt,
                format_args!("\"{file}\": refused {number}: {sentence}{place}"),
            );
        }
        None => tell(rt, format_args!("\"{file}\": refused {number}: {sentence}")),
    }
    Failure::Refused
}

// ---- trouble with a file

// Says what it is.
pub(crate) fn trouble<D: Display + Drop>(rt: &HostRuntime, text: D) -> Failure
    ensures { status_of result ≡ Status.Trouble }
{
    tell(rt, text);
    Failure::Trouble
}

// Says what could not be done with a file, and why.
pub(crate) fn failed(rt: &HostRuntime, what: &str, file: &str, error: Error) -> Failure
    ensures { status_of result ≡ Status.Trouble }
{
    let reason = Reason(error);
    trouble(rt, format_args!("{what} \"{file}\": {reason}"))
}

// Says it of a file.
pub(crate) fn unfit(rt: &HostRuntime, file: &str, what: &str) -> Failure
    ensures { status_of result ≡ Status.Trouble }
{
    trouble(rt, format_args!("\"{file}\"{what}"))
}

// Says that standard output could not be written, and why; and what has been done all the same.
pub(crate) fn unsaid(rt: &HostRuntime, done: &str, error: Error) -> Failure {
    let reason = Reason(error);
    trouble(
        rt,
        format_args!("cannot write standard output: {reason}{done}"),
    )
}
