// How the points of a buffer lie (containers/point_buffer.rs): point after point, or attribute after attribute.
#![tactic(auto)]

ghost use Rattle.std.specs.Prelude.{◌≡◌, ◌≤◌, ◌*◌};
ghost use Rattle.common.specs.Logic.{ℕ, get_or, min};
ghost use Rattle.common.specs.Lists.{first, tabulate};
ghost use Rattle.point_buffer.specs.Places.{point_bytes};
ghost use Rattle.point_buffer.specs.Records.{before_in, layout_in};

use common::least;
use datatype::datatype::size_of;
use layout::point_layout::PointLayout;

// Interleaved: the points one after another, each as long as the point size. Columns: for each attribute in list order the values of all
// points one after another, without padding.
#[derive(Clone, Copy, Debug, PartialEq, Eq)]
pub enum Storage {
    Interleaved,
    Columns,
}

// A range of the points of a buffer of so many: from the start to before the end.
#[derive(Clone, Copy, Debug, PartialEq, Eq)]
pub struct PointRange {
    pub storage: Storage,
    pub count: u32,
    pub start: u32,
    pub end: u32,
}

// What a buffer has for each of its points, and, of columns, the sum of the sizes of the attributes before each place. Past the attributes,
// and of interleaved points, where nothing asks for them, these sums are 0.
#[derive(Clone, Copy)]
pub struct Sizes {
    pub point: u32,
    pub before: [u32; 32],
}

fn column_sizes(layout: PointLayout) -> Sizes
    ensures point { (result.point ≡ point_bytes (layout_in layout) Storage.Columns) × (result.point ≤ 32 * 65535) }
    ensures before { first 0 result.before (min layout.count 32) ≡ tabulate (before_in (layout_in layout) Storage.Columns) (min layout.count 32) }
    ensures rest { (j : ℕ) → min layout.count 32 ≤ j → get_or result.before j 0 ≡ 0 }
{
    let mut before = [0u32; 32];
    let n = least(layout.count as u64, 32) as usize;
    let mut point: u32 = 0;
    for k in 0..n {
        before[k] = point;
        point += size_of(layout.attributes[k].attribute_definition.datatype) as u32;
    }
    Sizes { point, before }
}

pub fn sizes_of(layout: PointLayout, storage: Storage) -> Sizes
    ensures point { (result.point ≡ point_bytes (layout_in layout) storage) × (result.point ≤ 32 * 65535) }
    ensures before { first 0 result.before (min layout.count 32) ≡ tabulate (before_in (layout_in layout) storage) (min layout.count 32) }
    ensures rest { (j : ℕ) → min layout.count 32 ≤ j → get_or result.before j 0 ≡ 0 }
{
    match storage {
        Storage::Interleaved => Sizes {
            point: layout.size as u32,
            before: [0; 32],
        },
        Storage::Columns => column_sizes(layout),
    }
}
