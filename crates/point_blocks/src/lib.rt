// A file's points, of either storage, in blocks of fixed memory: where a block's bytes lie in the file, and its conversion into a target of
// zeros.
#![tactic(auto)]

ghost use Rattle.std.specs.Prelude.{◌≡◌, ◌≤◌, ◌<◌, ◌+◌, ◌*◌};
ghost use Rattle.common.specs.Logic.{leb, length};
ghost use Rattle.common.specs.Refusal.{left_by, outcome_of};
ghost use Rattle.buffer_conversion.specs.Lost.{converted_answer, lost_counts};
ghost use Rattle.plans.specs.Records.{plan_of};
ghost use Rattle.point_buffer.specs.Records.{layout_in};
ghost use Rattle.point_blocks.specs.Blocks.{block_of, bytes_of, natural_of, point_size_of, points_in, points_per_block, whole};
ghost use Rattle.point_blocks.specs.Parts.{is_block, part_of, stretch};

use buffer_conversion::convert::{convert_by_mapping, convert_into_range_uncounted};
use common::{Refusal, least};
use datatype::datatype::size_of;
use layout::point_layout::PointLayout;
use plans::plan::Plan;
use point_buffer::{PointRange, Storage, sizes_of};

// The bytes of a block, of source and of target each. The longest point has 65,535, so that a block holds four points or more.
pub const BLOCK_SIZE: usize = 262144;

// The most bytes that a file can have.
const LONGEST_FILE: u64 = 9223372036854775807;

// The number, or 0 where it is negative.
#[tactic(auto, unfolding(crate::specs::Blocks::natural_of))]
pub fn natural(number: i64) -> u64
    ensures { result ≡ natural_of number }
{
    u64::try_from(number).unwrap_or(0)
}

// How many points a file of some bytes has, if it has whole points only.
#[tactic(auto, unfolding(crate::specs::Blocks::points_in))]
pub fn points_in(length: u64, size: u16) -> Option<u64>
    ensures { result ≡ points_in length size }
{
    if size == 0 {
        return if length == 0 { Some(0) } else { None };
    }
    let n = length / size as u64;
    if n * size as u64 == length {
        Some(n)
    } else {
        None
    }
}

// A file can have so many points of so many bytes each.
fn possible(points: u64, size: u32) -> bool
    ensures { result ≡ leb (points * size) 9223372036854775807 }
{
    size == 0 || points <= LONGEST_FILE / size as u64
}

// How many bytes a file of so many points has, if a file can have that many.
#[tactic(auto, unfolding(crate::specs::Blocks::bytes_of))]
pub fn bytes_of(points: u64, size: u16) -> Option<u64>
    ensures { result ≡ bytes_of points size }
{
    if possible(points, size as u32) {
        Some(points * size as u64)
    } else {
        None
    }
}

// What a file has for each of its points: the point size, or the sum of the attribute sizes. Of a sound layout neither passes 65,535.
#[tactic(auto, unfolding(crate::specs::Blocks::point_size_of))]
pub fn point_size(layout: PointLayout, storage: Storage) -> u16
    ensures { result ≡ point_size_of (layout_in layout) storage }
{
    let sizes = sizes_of(layout, storage);
    least(sizes.point as u64, 65535) as u16
}

// As many points as fit both the source's and the target's bytes of a block.
#[tactic(auto, unfolding(crate::specs::Blocks::points_per_block))]
pub fn points_per_block(source_size: u16, target_size: u16) -> u64
    ensures number { result ≡ points_per_block source_size target_size }
    ensures some { 0 < result }
{
    BLOCK_SIZE as u64 / source_size.max(target_size).max(1) as u64
}

// ---- where a block lies in a file

// The block of count points from the point first on, of a file of so many points.
#[derive(Clone, Copy, Debug, PartialEq, Eq)]
pub struct Block {
    pub points: u64,
    pub first: u64,
    pub count: u32,
}

// A part of a block: where it begins in the file and in the block, and its length in bytes.
#[derive(Clone, Copy, Debug, PartialEq, Eq)]
pub struct Part {
    pub at: u64,
    pub start: usize,
    pub length: usize,
}

impl Block {
    // A file can have the points, of so many bytes each; the block lies within them, and has at most BLOCK_SIZE bytes.
    #[tactic(auto, unfolding(crate::specs::Parts::is_block))]
    fn is_within(self, size: u32) -> bool
        ensures { result ≡ is_block size self.points self.first self.count }
    {
        self.first <= self.points
            && self.count as u64 <= self.points - self.first
            && possible(self.points, size)
            && self.count as u64 * size as u64 <= BLOCK_SIZE as u64
    }

    // So many bytes for each point of the block, behind so many for each point of all.
    #[tactic(auto, unfolding(crate::specs::Parts::stretch))]
    fn stretch(self, size: u16, before: u32) -> Part
        requires { (self.first ≤ self.points) × (self.points * (before + size) ≤ 9223372036854775807) × (self.count * (before + size) ≤ 262144) }
        ensures { result ≡ stretch size before self.points self.first self.count }
    {
        Part {
            at: self.points * before as u64 + self.first * size as u64,
            start: self.count as usize * before as usize,
            length: self.count as usize * size as usize,
        }
    }
}

// Part k, counted from 0, of the block. There is nothing past the last, nor where the block passes the file's points or BLOCK_SIZE, or the file
// would be longer than a file can be.
pub fn part_of(layout: PointLayout, storage: Storage, block: Block, k: u8) -> Option<Part>
    ensures { result ≡ part_of (layout_in layout) storage block.points block.first block.count k }
{
    let sizes = sizes_of(layout, storage);
    if !block.is_within(sizes.point) {
        return None;
    }
    match storage {
        Storage::Interleaved if k == 0 => Some(block.stretch(layout.size, 0)),
        Storage::Columns if (k as u64) < least(layout.count as u64, 32) => {
            let size = size_of(layout.attributes[k as usize].attribute_definition.datatype);
            Some(block.stretch(size, sizes.before[k as usize]))
        }
        _ => None,
    }
}

// ---- the conversion of a block

// The points of a block, so many, converted into a target of zeros, and how many components each mapping lost. A refusal changes no byte: the
// conversion of none of the points gives the answer, and the target is cleared where it is accepted.
pub fn convert_block(
    plan: Plan,
    read: Storage,
    write: Storage,
    count: u32,
    source: &[u8],
    target: &mut [u8],
) -> Result<[u64; 32], Refusal>
    ensures answer { outcome_of result ≡ converted_answer (block_of (plan_of plan) read write count source.now (length target.old)) (lost_counts (plan_of plan) (whole read count) source.now) }
    ensures bytes { target.new ≡ left_by target.old (block_of (plan_of plan) read write count source.now (length target.old)) }
{
    let mut from = PointRange {
        storage: read,
        count,
        start: 0,
        end: 0,
    };
    let mut to = PointRange {
        storage: write,
        ..from
    };
    convert_into_range_uncounted(plan, source, from, target, to)?;
    target.fill(0);
    from.end = count;
    to.end = count;
    convert_by_mapping(plan, source, from, target, to)
}
