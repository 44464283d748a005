// The source: a file whose length is known before it is read.
use super::about::{goes_on, is_directory, is_regular, length_of};
use super::failure::{Failure, failed, unfit};
use super::lines::tell;
use open_file::of_descriptor;
use std::fs::File;
use std::os::unix::fs::FileExt;

// An open source and its length.
#[derive(Drop)]
pub(crate) struct Source {
    pub(crate) file: File,
    pub(crate) length: u64,
}

// Whether the file begins with the four bytes of a LAS file.
fn is_las(file: &File) -> bool {
    let mut head = [0u8; 4];
    match file.read_at(&mut head, 0) {
        Ok(_) => head == *b"LASF",
        Err(_) => false,
    }
}

// Warns of a source that begins with the four bytes of a LAS file.
fn warn_of_las(rt: &HostRuntime, file: &File, name: &str) {
    if is_las(file) {
        tell(
            rt,
            format_args!(
                "\"{name}\" begins as a LAS file does, and is read as points from its first byte on"
            ),
        );
    }
}

// Whether the open file is a regular one, or a directory, which reading tells.
fn has_length(file: &File) -> bool {
    of_descriptor(file).is_some_and(|found| is_regular(found.mode) || is_directory(found.mode))
}

// The length of the source, or why it cannot be converted.
fn length_told(rt: &HostRuntime, file: &File, name: &str) -> Result<u64, Failure> {
    if !has_length(file) {
        let what = " is no regular file: its length is not known before it is read";
        return Err(unfit(rt, name, what));
    }
    let length = length_of(file).map_err(|e| failed(rt, "cannot read", name, e))?;
    if length == 0 && goes_on(file, 0) {
        return Err(unfit(rt, name, " gives bytes, but tells no length"));
    }
    Ok(length)
}

pub(crate) fn open_source(rt: &HostRuntime, name: &str) -> Result<Source, Failure> {
    let file = File::open(rt, name).map_err(|e| failed(rt, "cannot open", name, e))?;
    let length = length_told(rt, &file, name)?;
    warn_of_las(rt, &file, name);
    Ok(Source { file, length })
}
