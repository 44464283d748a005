// Reading a whole buffer from a reader, or from a place in a file on, where a read that fails is told from the end of the input.
#![tactic(auto)]

ghost use Rattle.std.specs.Prelude.{◌+◌, cond, ◌≡◌, leb, pos, negsuc};
ghost use Rattle.std.specs.Io.{ReadsAtMost};

use std::io::{Read, Result};
use std::os::unix::fs::FileExt;

// The most bytes that a file can have.
const LONGEST_FILE: u64 = 9223372036854775807;

// The place so many bytes behind a place in a file, as the system takes it; -1 where no file goes so far, which the system refuses with a number
// of its own, so that no caller has to make that error up.
pub fn offset_of(at: u64, count: usize) -> i64
    ensures { result ≡ cond (leb (at + count) 9223372036854775807) (pos (at + count)) (negsuc 0) }
{
    match at.checked_add(count as u64) {
        Some(place) if place <= LONGEST_FILE => place as i64,
        _ => -1,
    }
}

// Reads from where the reader stands on, until the buffer is full or the input ends, in whatever pieces it comes; answers how many bytes came.
pub fn read_input<R: Read>(reader: &mut R, input: &mut [u8]) -> Result<usize>
    ensures { ReadsAtMost result input.new }
{
    let mut count = 0;
    // each turn goes on by what one read brings
    while count < input.len() {
        let n = reader.read(&mut input[count..])?;
        if n == 0 {
            break;
        }
        count += n;
    }
    Ok(count)
}

// A file, from a place in it on, and how many bytes were read there.
#[derive(Drop)]
struct Place<'a, F> {
    file: &'a F,
    at: u64,
    count: usize,
}

impl<'a, F: FileExt> Read for Place<'a, F> {
    fn read(&mut self, part: &mut [u8]) -> Result<usize> {
        let n = self
            .file
            .read_at(part, offset_of(self.at, self.count).cast_unsigned())?;
        self.count = self.count.saturating_add(n);
        Ok(n)
    }
}

// Reads from a place in the file on; the file's position stays.
pub fn read_at<F: FileExt>(file: &F, at: u64, input: &mut [u8]) -> Result<usize>
    ensures { ReadsAtMost result input.new }
{
    let mut place = Place { file, at, count: 0 };
    read_input(&mut place, input)
}
