// The conversion of a range of points by a plan (buffer_conversion.rs), over interleaved points and over columns: a storage says where an
// attribute lies, and all else is the same. Points are converted in blocks that stay in the cache while each mapping passes over them; what a
// mapping needs is made once, before the first point.
ghost use Rattle.std.specs.Prelude.{◌≡◌, ◌∷◌, ◌≤◌, ◌<◌, ◌*◌, ◌^◌};
ghost use Rattle.common.specs.Logic.{true, cond, [], ℕ, length, get_or};
ghost use Rattle.common.specs.Lists.{first};
ghost use Rattle.common.specs.Refusal.{answer, answered, answer_of, left_by, number_of, outcome_of};
ghost use Rattle.strided.specs.Steps.{no_cast, CastsFit};
ghost use Rattle.writes.specs.Writes.{begins, starting_at};
ghost use Rattle.strided.specs.Strided.{converted, lost_points, points_from, strided_fits};
ghost use Rattle.buffer_conversion.specs.Casts.{member_place, HasSizes, casts, lost_before};
ghost use Rattle.buffer_conversion.specs.Conversion.{length_number, buffer_lines, convert_into_range};
ghost use Rattle.buffer_conversion.specs.Lost.{converted_answer, lost_counts, lost_over};
ghost use Rattle.plans.specs.Plan.{is_sound_plan};
ghost use Rattle.plans.specs.Records.{plan_of};

use common::{Refusal, least};
use datatype::datatype::{Datatype, size_of};
use layout::point_layout::PointAttributeMember;
use plans::plan::Plan;
use point_buffer::{PointRange, Storage, sizes_of};
use strided::{StridedCast, cast_strided, cast_strided_uncounted};
use writes::Strided;

// ---- the checks

// 22 takes the place of 15 or 16 on a side of columns.
#[tactic(auto, unfolding(crate::specs::Conversion::length_number))]
fn length_refusal(refusal: Refusal, storage: Storage) -> Refusal
    ensures { number_of result ≡ length_number (number_of refusal) storage }
{
    match storage {
        Storage::Interleaved => refusal,
        Storage::Columns => Refusal::ColumnLength,
    }
}

// The six buffer checks, of a source of a bytes and a target of b, where a point has so many bytes.
fn check_buffers(
    source_size: u32,
    a: usize,
    from: PointRange,
    target_size: u32,
    b: usize,
    to: PointRange,
) -> Result<(), Refusal>
    ensures { answered result ≡ answer (buffer_lines source_size a «from» target_size b to) }
{
    if a != from.count as usize * source_size as usize {
        return Err(length_refusal(Refusal::SourceLength, from.storage));
    }
    if b != to.count as usize * target_size as usize {
        return Err(length_refusal(Refusal::TargetLength, to.storage));
    }
    if from.end < from.start || to.end < to.start {
        return Err(Refusal::BackwardRange);
    }
    if from.end - from.start != to.end - to.start {
        return Err(Refusal::RangeLengths);
    }
    if from.count < from.end {
        return Err(Refusal::SourceRange);
    }
    if to.count < to.end {
        return Err(Refusal::TargetRange);
    }
    Ok(())
}

// ---- the casts of a plan

// Where an attribute lies in the points of a range, from the first of them on, by the point size and the sizes before it.
fn place_of(member: PointAttributeMember, size: u16, before: u32, range: PointRange) -> Strided
    requires { before ≤ 32 * 65535 }
    ensures { result ≡ starting_at range.start (member_place member size before range.storage range.count) }
{
    let start = range.start as usize;
    match range.storage {
        Storage::Interleaved => Strided {
            base: member.offset as usize + start * size as usize,
            stride: size as usize,
        },
        Storage::Columns => {
            let stride = size_of(member.attribute_definition.datatype) as usize;
            Strided {
                base: range.count as usize * before as usize + start * stride,
                stride,
            }
        }
    }
}

// The casts of all mappings, as many as the plan's count; reads and writes have the sizes before each place. They lie in an array, since
// the library is without heap.
fn casts_of(
    plan: &Plan,
    from: PointRange,
    reads: &[u32; 32],
    to: PointRange,
    writes: &[u32; 32],
) -> [StridedCast; 32]
    requires { (is_sound_plan (plan_of plan.now) ≡ true) × HasSizes plan.now.source «from».storage reads.now × HasSizes plan.now.target to.storage writes.now }
    ensures { (length result ≡ 32) × (first no_cast result plan.now.count ≡ casts (plan_of plan.now) «from» to) }
{
    let d = Datatype::plain(0);
    let none = Strided { base: 0, stride: 0 };
    let mut list = [StridedCast {
        from: d,
        to: d,
        source: none,
        target: none,
    }; 32];
    for k in 0..plan.count as usize {
        let s = plan.mappings[k].source as usize;
        let t = plan.mappings[k].target as usize;
        let a = plan.source.attributes[s];
        let b = plan.target.attributes[t];
        list[k] = StridedCast {
            from: a.attribute_definition.datatype,
            to: b.attribute_definition.datatype,
            source: place_of(a, plan.source.size, reads[s], from),
            target: place_of(b, plan.target.size, writes[t], to),
        };
    }
    list
}

// ---- the conversion

// The cast without its first d points.
fn points_from(cast: StridedCast, d: usize) -> StridedCast
    requires { (begins cast.source d < 2 ^ 64) × (begins cast.target d < 2 ^ 64) }
    ensures { result ≡ points_from d cast }
{
    StridedCast {
        source: Strided {
            base: cast.source.base + d * cast.source.stride,
            ..cast.source
        },
        target: Strided {
            base: cast.target.base + d * cast.target.stride,
            ..cast.target
        },
        ..cast
    }
}

// n points of one cast, and how many components were lost; 0 where that is not counted.
fn cast_points<const COUNTED: bool>(
    cast: StridedCast,
    n: usize,
    source: &[u8],
    target: &mut [u8],
) -> u64
    requires { (n < 2 ^ 32) × (strided_fits cast n (length source.now) (length target.old) ≡ true) }
    ensures lost { result ≡ cond COUNTED (lost_points cast source.now n) 0 }
    ensures bytes { target.new ≡ converted (cast ∷ []) source.now n target.old }
{
    if COUNTED {
        cast_strided(cast, n as u32, source, target).unwrap_or(0)
    } else {
        cast_strided_uncounted(cast, n, source, target);
        0
    }
}

// The casts, n points each: block after block, or one cast over all points at once; and how many components each of them lost.
fn convert_blocks<const COUNTED: bool>(
    casts: &[StridedCast],
    n: usize,
    source: &[u8],
    target: &mut [u8],
) -> [u64; 32]
    requires { (length casts.now ≤ 32) × (n < 2 ^ 32) × CastsFit casts.now n (length source.now) (length target.old) }
    ensures lost { (length result ≡ 32) × ((j : ℕ) → get_or result j 0 ≡ lost_before COUNTED casts.now source.now n j) }
    ensures bytes { target.new ≡ converted casts.now source.now n target.old }
{
    let mut lost = [0u64; 32];
    if casts.len() == 1 {
        lost[0] = cast_points::<COUNTED>(casts[0], n, source, target);
        return lost;
    }
    for d in (0..n).step_by(256) {
        let m = least((n - d) as u64, 256) as usize;
        for k in 0..casts.len() {
            lost[k] += cast_points::<COUNTED>(points_from(casts[k], d), m, source, target);
        }
    }
    lost
}

// The points of the source range converted into those of the target range, with how many components each mapping lost where they are counted. Plan,
// bytes and ranges are the parameters of the Rust's call: a struct of them would hold a `&mut`, and each of its callers would make one.
fn convert_range<const COUNTED: bool>(
    plan: Plan,
    source: &[u8],
    from: PointRange,
    target: &mut [u8],
    to: PointRange,
) -> Result<[u64; 32], Refusal>
    ensures answer { answered result ≡ answer_of (convert_into_range (plan_of plan) source.now «from» target.old to) }
    ensures lost { COUNTED ≡ true → outcome_of result ≡ converted_answer (convert_into_range (plan_of plan) source.now «from» target.old to) (lost_counts (plan_of plan) «from» source.now) }
    ensures bytes { target.new ≡ left_by target.old (convert_into_range (plan_of plan) source.now «from» target.old to) }
{
    if !plan.sound() {
        return Err(Refusal::Unsound);
    }
    let reads = sizes_of(plan.source, from.storage);
    let writes = sizes_of(plan.target, to.storage);
    check_buffers(
        reads.point,
        source.len(),
        from,
        writes.point,
        target.len(),
        to,
    )?;
    let n = (to.end - to.start) as usize;
    if n == 0 {
        return Ok([0; 32]);
    }
    let list = casts_of(&plan, from, &reads.before, to, &writes.before);
    let casts = &list[..plan.count as usize];
    Ok(convert_blocks::<COUNTED>(casts, n, source, target))
}

// The points of the source range converted into those of the target range, and how many components each mapping lost: as many numbers as the
// plan has mappings, in its order, then zeros. A refusal changes no byte.
pub fn convert_by_mapping(
    plan: Plan,
    source: &[u8],
    from: PointRange,
    target: &mut [u8],
    to: PointRange,
) -> Result<[u64; 32], Refusal>
    ensures answer { outcome_of result ≡ converted_answer (convert_into_range (plan_of plan) source.now «from» target.old to) (lost_counts (plan_of plan) «from» source.now) }
    ensures bytes { target.new ≡ left_by target.old (convert_into_range (plan_of plan) source.now «from» target.old to) }
{
    convert_range::<true>(plan, source, from, target, to)
}

// The same without a count.
pub fn convert_into_range_uncounted(
    plan: Plan,
    source: &[u8],
    from: PointRange,
    target: &mut [u8],
    to: PointRange,
) -> Result<(), Refusal>
    ensures answer { answered result ≡ answer_of (convert_into_range (plan_of plan) source.now «from» target.old to) }
    ensures bytes { target.new ≡ left_by target.old (convert_into_range (plan_of plan) source.now «from» target.old to) }
{
    convert_range::<false>(plan, source, from, target, to)?;
    Ok(())
}

// The points of the source range converted into those of the target range, and how many components were lost, summed over the mappings. A refusal
// changes no byte.
pub fn convert_into_range(
    plan: Plan,
    source: &[u8],
    from: PointRange,
    target: &mut [u8],
    to: PointRange,
) -> Result<u64, Refusal>
    ensures answer { outcome_of result ≡ converted_answer (convert_into_range (plan_of plan) source.now «from» target.old to) (lost_over (plan_of plan) «from» source.now) }
    ensures bytes { target.new ≡ left_by target.old (convert_into_range (plan_of plan) source.now «from» target.old to) }
{
    let lost = convert_by_mapping(plan, source, from, target, to)?;
    Ok(lost.iter().sum())
}
