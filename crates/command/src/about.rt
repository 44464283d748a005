// What the system tells of files.
use input::read_at;
use std::fs::{File, symlink_metadata};
use std::io::{Result, Seek, SeekFrom};
use std::os::unix::fs::FileExt;

// The bits of a mode that tell a file's kind, and what they are of a regular file and of a directory.
const KIND: u32 = 0o170000;

const REGULAR: u32 = 0o100000;

const DIRECTORY: u32 = 0o040000;

// Whether the name is that of a link, which a new file of that name would replace.
pub(crate) fn is_link(rt: &HostRuntime, name: &str) -> bool {
    symlink_metadata(rt, name).is_ok_and(|found| found.is_symlink())
}

// Whether a mode is that of a regular file.
pub(crate) fn is_regular(mode: u32) -> bool {
    mode & KIND == REGULAR
}

// Whether a mode is that of a directory.
pub(crate) fn is_directory(mode: u32) -> bool {
    mode & KIND == DIRECTORY
}

// Where an open file ends.
pub(crate) fn end_of(file: &File) -> Result<u64> {
    let mut end = file;
    end.seek(SeekFrom::End(0))
}

// The length of an open file, from its end. The read tells a directory.
pub(crate) fn length_of(file: &File) -> Result<u64> {
    let mut byte = [0u8; 1];
    file.read_at(&mut byte, 0)?;
    end_of(file)
}

// Whether a byte can be read at the place.
pub(crate) fn goes_on(file: &File, at: u64) -> bool {
    let mut byte = [0u8; 1];
    read_at(file, at, &mut byte).is_ok_and(|n| 0 < n)
}
