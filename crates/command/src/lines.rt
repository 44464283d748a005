// What the command says: the result on standard output, all else on standard error.
use super::failure::{Failure, unsaid};
use arrayvec::{ArrayString, ArrayVec};
use std::fmt::{Display, Write};
use std::io;
use std::io::Print;

// The bytes of the longest message: two names of files, what is said of them, and a line for each mapping.
const MESSAGE_SIZE: usize = 12288;

// Writes a line in one piece, so that the lines of runs beside each other stay whole. A function of its own, whose memory is taken while it writes.
#[inline(never)]
fn write_line<P: Print, D: Display + Drop>(to: &P, line: D) -> io::Result<()> {
    let mut text = ArrayString::<MESSAGE_SIZE>::new();
    // it fits
    let _ = write!(text, "{line}\n");
    to.write_all(text.as_str().as_bytes())
}

// A message on standard error. Where it cannot be written, nothing is left to be told.
pub(crate) fn tell<D: Display + Drop>(rt: &HostRuntime, message: D) {
    let _ = write_line(&rt.stderr(), format_args!("nakvisk: {message}"));
}

// A line on standard output.
pub(crate) fn print_line<D: Display + Drop>(rt: &HostRuntime, line: D) -> io::Result<()> {
    write_line(rt, line)
}

// A text on standard output.
pub(crate) fn print(rt: &HostRuntime, text: &str) -> Result<(), Failure> {
    rt.write_all(text.as_bytes()).map_err(|e| unsaid(rt, "", e))
}

// That a name is no UTF-8, which is said with its bytes as they are.
#[inline(never)]
pub(crate) fn say_not_text(rt: &HostRuntime, name: &[u8]) {
    let mut line = ArrayVec::<u8, 4352>::new();
    // each fits
    let _ = line.try_extend_from_slice(b"nakvisk: \"");
    let _ = line.try_extend_from_slice(name);
    let _ = line.try_extend_from_slice(
        b"\" is no UTF-8, and the name of no file that can be opened\n",
    );
    let _ = rt.stderr().write_all(line.as_slice());
}
