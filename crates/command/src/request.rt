// What the process's arguments ask for, and the running of it.
use super::convert::convert;
use super::failure::{Failure, failed};
use super::help::{HELP, HELP_OF_CONVERT, HELP_OF_HELP, HELP_OF_PLAN, VERSION, WRONG_USAGE};
use super::lines::{print, say_not_text, tell};
use super::list::list;
use super::points::{Job, Options};
use point_buffer::Storage;
use std::env::FillError;
use std::fs::{File, OpenOptions};
use std::io::Error;
use std::os::fd::AsRawFd;
use std::rt::Env;
use usage::status::Status;
use usage::{Request, Task, Word, next_request, no_request, task_of, word_of};

// The argument's word, or none where there is no such argument. One that does not fit a path's length means nothing here.
fn word_at(rt: &HostRuntime, i: usize) -> Option<Word> {
    let mut text = io::buffer();
    match rt.arg(i, &mut text) {
        Ok(n) => Some(word_of(&text[..n])),
        Err(FillError::TooLong) => Some(Word::Other),
        Err(FillError::NotPresent) => None,
    }
}

// What all arguments ask for, and how many they are, with the program's name.
#[derive(Clone, Copy)]
struct Asked {
    request: Request,
    count: usize,
}

fn request(rt: &HostRuntime) -> Asked {
    let mut request = no_request();
    for count in 1..usize::MAX {
        match word_at(rt, count) {
            Some(word) => request = next_request(request, word),
            None => return Asked { request, count },
        }
    }
    Asked {
        request,
        count: usize::MAX,
    }
}

// ---- the standard streams

const STANDARD_INPUT: i32 = 0;

const STANDARD_ERROR: i32 = 2;

// The standard streams that are closed, whose numbers are taken meanwhile, so that no file gets the number of one.
#[derive(Drop)]
struct Held {
    input: Option<File>,
    output: Option<File>,
    error: Option<File>,
}

// Takes the number of standard input where that is closed, so that reading it fails.
fn hold_input(rt: &HostRuntime) -> Option<File> {
    let opened = OpenOptions::new().append(true).open(rt, "/dev/null");
    opened
        .ok()
        .filter(|file| file.as_raw_fd() == STANDARD_INPUT)
}

// Takes the lowest number that no open file has, if it is that of standard output or standard error, so that writing there fails.
fn hold_output(rt: &HostRuntime) -> Option<File> {
    let opened = File::open(rt, "/dev/null");
    opened
        .ok()
        .filter(|file| file.as_raw_fd() <= STANDARD_ERROR)
}

// Takes the standard streams that are closed, in the order of their numbers.
fn hold_standard_streams(rt: &HostRuntime) -> Held {
    let input = hold_input(rt);
    let output = hold_output(rt);
    let error = hold_output(rt);
    Held {
        input,
        output,
        error,
    }
}

// ---- the commands with operands, which are the last arguments

// The system's numbers for an argument that is missing, and for one that is too long.
const EINVAL: i32 = 22;

const ENAMETOOLONG: i32 = 36;

// An operand, which names a file, put into the buffer. The library takes names that are UTF-8; one that is none names no file here.
fn operand<'a>(
    rt: &HostRuntime,
    i: usize,
    buffer: &'a mut [u8; 4096],
    what: &str,
) -> Result<&'a str, Failure> {
    let n = match rt.arg(i, buffer) {
        Ok(n) => n,
        Err(e) => {
            let error = match e {
                FillError::TooLong => ENAMETOOLONG,
                FillError::NotPresent => EINVAL,
            };
            let error = Error::from_raw_os_error(error);
            return Err(failed(rt, "cannot use", what, error));
        }
    };
    let name = &buffer[..n];
    match std::str::from_utf8(name) {
        Ok(name) => Ok(name),
        Err(_) => {
            say_not_text(rt, name);
            Err(Failure::Trouble)
        }
    }
}

fn run_list(rt: &HostRuntime, count: usize) -> Result<(), Failure> {
    if count < 2 {
        return Err(Failure::WrongUsage);
    }
    let mut buffer = io::buffer();
    let sheets = operand(rt, count - 1, &mut buffer, "SHEETS")?;
    list(rt, sheets)
}

fn run_convert(rt: &HostRuntime, count: usize, options: Options) -> Result<(), Failure> {
    if count < 4 {
        return Err(Failure::WrongUsage);
    }
    let mut first = io::buffer();
    let sheets = operand(rt, count - 3, &mut first, "SHEETS")?;
    let mut second = io::buffer();
    let source = operand(rt, count - 2, &mut second, "SOURCE")?;
    let mut third = io::buffer();
    let target = operand(rt, count - 1, &mut third, "TARGET")?;
    let job = Job {
        options,
        source,
        target,
    };
    convert(rt, sheets, &job)
}

// ---- all commands

fn storage_of(is_columns: bool) -> Storage {
    if is_columns {
        Storage::Columns
    } else {
        Storage::Interleaved
    }
}

fn run_task(rt: &HostRuntime, task: Task, count: usize) -> Result<(), Failure> {
    match task {
        Task::Plan => run_list(rt, count),
        Task::Convert {
            source,
            target,
            whole,
        } => {
            let options = Options {
                source: storage_of(source),
                target: storage_of(target),
                whole,
            };
            run_convert(rt, count, options)
        }
        Task::Help => print(rt, HELP),
        Task::HelpOfPlan => print(rt, HELP_OF_PLAN),
        Task::HelpOfConvert => print(rt, HELP_OF_CONVERT),
        Task::HelpOfHelp => print(rt, HELP_OF_HELP),
        Task::Version => print(rt, VERSION),
        Task::Nothing | Task::Wrong => {
            tell(rt, WRONG_USAGE);
            Err(Failure::WrongUsage)
        }
    }
}

pub(crate) fn run(rt: &HostRuntime) -> Status {
    let held = hold_standard_streams(rt);
    let asked = request(rt);
    let done = run_task(rt, task_of(asked.request), asked.count);
    let status = match done {
        Ok(()) => Status::Done,
        Err(failure) => failure.status(),
    };
    drop(held);
    status
}
