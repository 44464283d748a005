// What the system's error numbers say. std's own text ends in the number, and has other words for some.
use std::fmt;
use std::fmt::Display;
use std::io::Error;

#[derive(Clone, Copy)]
pub(crate) struct Reason(pub(crate) Error);

impl Display for Reason {
    fn fmt<W: fmt::Write>(&self, f: &mut fmt::Formatter<W>) -> fmt::Result {
        f.write_str(text_of(self.0.raw_os_error()))
    }
}

fn text_of(number: Option<i32>) -> &'static str {
    match number {
        Some(1) => "Operation not permitted",
        Some(2) => "No such file or directory",
        Some(4) => "Interrupted system call",
        Some(5) => "Input/output error",
        Some(6) => "No such device or address",
        Some(9) => "Bad file descriptor",
        Some(11) => "Resource temporarily unavailable",
        Some(12) => "Cannot allocate memory",
        Some(13) => "Permission denied",
        Some(16) => "Device or resource busy",
        Some(17) => "File exists",
        Some(18) => "Invalid cross-device link",
        Some(20) => "Not a directory",
        Some(21) => "Is a directory",
        Some(22) => "Invalid argument",
        Some(24) => "Too many open files",
        Some(26) => "Text file busy",
        Some(27) => "File too large",
        Some(28) => "No space left on device",
        Some(29) => "Illegal seek",
        Some(30) => "Read-only file system",
        Some(32) => "Broken pipe",
        Some(36) => "File name too long",
        Some(39) => "Directory not empty",
        Some(40) => "Too many levels of symbolic links",
        Some(122) => "Disk quota exceeded",
        _ => "an unknown error",
    }
}
