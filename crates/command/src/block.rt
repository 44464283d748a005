// A block's parts, each read from and written to its own place in a file.
ghost use Rattle.std.specs.Prelude.{◌≡◌};
ghost use Rattle.std.specs.Io.{WritesAtMost};

use super::failure::{Failure, failed, unfit};
use input::{offset_of, read_at};
use layout::point_layout::PointLayout;
use point_blocks::{BLOCK_SIZE, Block, part_of, point_size};
use point_buffer::Storage;
use std::fs::File;
use std::io::{self, Error, ErrorKind};
use std::os::unix::fs::FileExt;

// The most parts that a block has: one for each attribute.
const PARTS: u8 = 32;

// One write, of at most the bytes that are lent; answers how many were written.
fn write_some(to: &File, at: i64, bytes: &[u8]) -> io::Result<usize>
    ensures { WritesAtMost result bytes.now }
{
    to.write_at(bytes, at.cast_unsigned())
}

// Writes the bytes from a place in the file on, in whatever pieces they are taken; an error where not all were written.
fn write_at(to: &File, at: u64, bytes: &[u8]) -> io::Result<()> {
    let mut count = 0;
    // each turn goes on by what one write takes
    while count < bytes.len() {
        let n = write_some(to, offset_of(at, count), &bytes[count..])?;
        if n == 0 {
            return Err(Error::from(ErrorKind::WriteZero));
        }
        count += n;
    }
    Ok(())
}

// An open file of points, its name, how the points lie in it, and how many bytes it has for each.
#[derive(Clone, Copy)]
pub(crate) struct PointFile<'a> {
    file: &'a File,
    name: &'a str,
    layout: &'a PointLayout,
    storage: Storage,
    pub(crate) size: u16,
}

impl<'a> PointFile<'a> {
    pub(crate) fn new(
        file: &'a File,
        name: &'a str,
        layout: &'a PointLayout,
        storage: Storage,
    ) -> PointFile<'a> {
        PointFile {
            file,
            name,
            layout,
            storage,
            size: point_size(*layout, storage),
        }
    }

    // Hands over the bytes of each part of a block, and where they lie in the file, up to the first that fails.
    fn for_each_part<F: Fn(&mut [u8], u64) -> Result<(), Failure>>(
        &self,
        block: Block,
        bytes: &mut [u8; BLOCK_SIZE],
        transfer: F,
    ) -> Result<(), Failure>
        requires { F.IsAlwaysCallable transfer }
    {
        let layout = self.layout;
        for k in 0..PARTS {
            let Some(part) = part_of(*layout, self.storage, block, k) else {
                break;
            };
            let end = part.start + part.length;
            transfer(&mut bytes[part.start..end], part.at)?;
        }
        Ok(())
    }

    // Reads a block to the start of the bytes.
    pub(crate) fn read(
        &self,
        rt: &HostRuntime,
        block: Block,
        bytes: &mut [u8; BLOCK_SIZE],
    ) -> Result<(), Failure> {
        let file = self.file;
        let name = self.name;
        self.for_each_part(block, bytes, |part, at| match read_at(file, at, part) {
            Ok(n) if n == part.len() => Ok(()),
            Ok(_) => Err(unfit(rt, name, " became shorter while it was read")),
            Err(e) => Err(failed(rt, "cannot read", name, e)),
        })
    }

    // Writes a block, which is at the start of the bytes and stays.
    pub(crate) fn write(
        &self,
        rt: &HostRuntime,
        block: Block,
        bytes: &mut [u8; BLOCK_SIZE],
    ) -> Result<(), Failure> {
        let file = self.file;
        let name = self.name;
        self.for_each_part(block, bytes, |part, at| {
            write_at(file, at, part).map_err(|e| failed(rt, "cannot write", name, e))
        })
    }
}
