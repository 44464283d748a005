// What the system tells of an open file.
#![tactic(auto)]

ghost use Rattle.open_file.specs.Told.{Told};

use std::fs::{Files, Metadata, OpenFile, metadata};
use std::io::Result;
use std::os::unix::fs::MetadataExt;

// mode: the file's kind and permission bits.
#[derive(Clone, Copy)]
pub struct About {
    pub mode: u32,
    pub device: u64,
    pub inode: u64,
}

// What the system answered, if anything.
fn told(answer: Result<Metadata>) -> Option<About>
    ensures { Told answer result }
{
    let found = answer.ok()?;
    Some(About {
        mode: found.mode(),
        device: found.dev(),
        inode: found.ino(),
    })
}

// What the open file is; none where the system tells nothing. Here and below the type says all that can be promised: the library promises nothing of what the
// system answers, and none has no numbers.
pub fn of_descriptor<F: OpenFile>(file: &F) -> Option<About> {
    told(file.metadata())
}

// What is open as standard input; none where no file is, or /proc is not there.
pub fn of_standard_input(files: &impl Files) -> Option<About> {
    told(metadata(files, "/proc/self/fd/0"))
}
