// Replays calls of the library. Each line of standard input has a call, its inputs and what is due; a line that begins with `=` is the title
// of a section, one that begins with `#` a comment. Prints for each section how many calls were run and how many agree, with the number of
// each line that differs or cannot be read, and how many lines there are.
#![tactic(auto)]

mod calls;
mod casts;
mod conversions;
mod layouts;
mod makers;
mod places;
mod plan;
mod text;
mod views;

ghost use Rattle.std.specs.Prelude.{◌≤◌, IfSome};

use std::io::{Print, Read};

// No more lines are read.
const LINES: u64 = 1000000;

// What does not fit into so many bytes is left for the next line.
const LONGEST_LINE: usize = 65536;

// How many calls of this section were run, and how many agree.
#[derive(Clone, Copy, Default)]
struct Section {
    run: u64,
    agreed: u64,
}

impl Section {
    fn print(self, rt: &HostRuntime) {
        let run = self.run;
        let agreed = self.agreed;
        if 0 < run {
            let _ = println!(rt; "{run} run, {agreed} agree");
        }
    }

    // Makes the call of the line with this number.
    fn replay(&mut self, rt: &HostRuntime, line: &[u8], number: u64) {
        self.run = self.run.saturating_add(1);
        if calls::agrees(line) {
            self.agreed = self.agreed.saturating_add(1);
        } else {
            let _ = println!(rt; "line {number} differs");
        }
    }

    // A title ends the section and begins the next.
    fn take_line(&mut self, rt: &HostRuntime, line: &[u8], number: u64) {
        match line {
            [] | [b'#', ..] => {}
            [b'=', ..] => {
                self.print(rt);
                let _ = rt.write_all(line);
                let _ = rt.write_all(b"\n");
                *self = Section::default();
            }
            _ => self.replay(rt, line, number),
        }
    }
}

// The next byte, if there is one.
fn read_byte<R: Read>(input: &mut R) -> Option<u8> {
    let mut byte = [0u8; 1];
    match input.read(&mut byte) {
        Ok(1) => Some(byte[0]),
        _ => None,
    }
}

// How many bytes the next line has, which are then here without its end; none where there is no line more. What stands after the last line's end
// is none.
fn read_line<R: Read>(input: &mut R, line: &mut [u8; LONGEST_LINE]) -> Option<usize>
    ensures { IfSome result (λ n. n ≤ 65536) }
{
    for n in 0..LONGEST_LINE {
        match read_byte(input)? {
            b'\n' => return Some(n),
            byte => line[n] = byte,
        }
    }
    Some(LONGEST_LINE)
}

// Replays the lines, and answers how many there are.
fn replay(rt: &HostRuntime, section: &mut Section) -> u64 {
    let mut input = rt.reader();
    let mut line = [0u8; LONGEST_LINE];
    for number in 1..=LINES {
        let Some(n) = read_line(&mut input, &mut line) else {
            return number - 1;
        };
        section.take_line(rt, &line[..n], number);
    }
    LINES
}

fn main(rt: HostRuntime) {
    let mut section = Section::default();
    let lines = replay(&rt, &mut section);
    section.print(&rt);
    let _ = println!(rt; "{lines} lines");
}
