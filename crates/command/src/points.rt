// The points of a file, read, converted and written block after block.
ghost use Rattle.std.specs.Prelude.{◌≡◌, ◌≤◌, ◌*◌};

use super::block::PointFile;
use super::failure::{Failure, refused};
use super::losses::Losses;
use super::names::PartName;
use super::progress::Progress;
use super::source::Source;
use plans::plan::Plan;
use point_blocks::{BLOCK_SIZE, Block, convert_block, points_per_block};
use point_buffer::Storage;
use std::fs::File;

// What the options say: how the points of both files lie, and whether nothing may be lost.
#[derive(Clone, Copy)]
pub(crate) struct Options {
    pub(crate) source: Storage,
    pub(crate) target: Storage,
    pub(crate) whole: bool,
}

// What `nakvisk convert` is asked for by a plan: its options, and the names of the files of points.
#[derive(Clone, Copy)]
pub(crate) struct Job<'a> {
    pub(crate) options: Options,
    pub(crate) source: &'a str,
    pub(crate) target: &'a str,
}

// The points of an open source, so many, and the plan that converts them into so many bytes. older: the mode of the file that the target replaces.
#[derive(Drop)]
pub(crate) struct Conversion<'a> {
    pub(crate) job: &'a Job<'a>,
    pub(crate) plan: &'a Plan,
    pub(crate) source: &'a Source,
    pub(crate) points: u64,
    pub(crate) written: u64,
    pub(crate) older: Option<u32>,
}

// A new file that takes the target's name when it is whole.
#[derive(Drop)]
pub(crate) struct Part {
    pub(crate) file: File,
    pub(crate) name: PartName,
}

// The bytes of a block.
#[derive(Drop)]
struct Bytes {
    source: [u8; BLOCK_SIZE],
    target: [u8; BLOCK_SIZE],
}

impl<'a> Conversion<'a> {
    // Converts the points of a block that was read. It is never refused, by `BlockClaim`: the plan of sheets is sound.
    fn convert_read(
        &self,
        rt: &HostRuntime,
        count: u32,
        source: &[u8],
        target: &mut [u8],
    ) -> Result<[u64; 32], Failure> {
        let options = self.job.options;
        let converted = convert_block(
            *self.plan,
            options.source,
            options.target,
            count,
            source,
            target,
        );
        converted.map_err(|refusal| refused(rt, self.job.source, refusal, None))
    }

    // Reads the points of a block, converts them and writes them.
    fn convert_some(
        &self,
        rt: &HostRuntime,
        block: Block,
        from: &PointFile,
        to: &PointFile,
        bytes: &mut Bytes,
    ) -> Result<[u64; 32], Failure>
        requires { (block.count * from.now.size ≤ 262144) × (block.count * to.now.size ≤ 262144) }
    {
        let i = (block.count as usize) * (from.size as usize);
        let j = (block.count as usize) * (to.size as usize);
        from.read(rt, block, &mut bytes.source)?;
        let source = &bytes.source[..i];
        let target = &mut bytes.target[..];
        let lost = self.convert_read(rt, block.count, source, &mut target[..j])?;
        to.write(rt, block, &mut bytes.target)?;
        Ok(lost)
    }

    // Reads the points, converts them and writes them into the part.
    pub(crate) fn convert_all(&self, rt: &HostRuntime, part: &Part) -> Result<Losses, Failure> {
        let job = self.job;
        let plan = self.plan;
        let source = self.source;
        let options = job.options;
        let from = PointFile::new(&source.file, job.source, &plan.source, options.source);
        let to = PointFile::new(&part.file, part.name.as_str(), &plan.target, options.target);
        let most = points_per_block(from.size, to.size);
        let points = self.points;
        let mut bytes = Bytes {
            source: [0; BLOCK_SIZE],
            target: [0; BLOCK_SIZE],
        };
        let mut lost = Losses::none();
        let mut progress = Progress::begin(rt);
        for first in (0..points).step_by(most as usize) {
            let n = (points - first).min(most);
            let block = Block {
                points,
                first,
                count: n as u32,
            };
            lost = lost.with(self.convert_some(rt, block, &from, &to, &mut bytes)?);
            progress.show(rt, first + n, points);
        }
        Ok(lost)
    }
}
