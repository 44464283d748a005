// `nakvisk convert`: the points of a source converted into a target, by the plan of the sheets.
ghost use Rattle.std.specs.Prelude.{◌≡◌, None};
ghost use Rattle.command.specs.Ends.{ended, status_of};
ghost use Rattle.point_blocks.specs.Blocks.{point_size_of, points_in};
ghost use Rattle.point_buffer.specs.Records.{layout_in};
ghost use Rattle.usage.specs.declared.status.Status.{Status};

use super::failure::{Failure, trouble, unfit, unsaid};
use super::lines::print_line;
use super::losses::{LossLines, Losses};
use super::points::{Conversion, Job};
use super::sheets_file::{open_sheets, plan_in, warn_of_unmapped};
use super::source::{Source, open_source};
use super::target::find_target;
use plans::plan::Plan;
use point_blocks::{bytes_of, point_size, points_in};
use point_buffer::Storage;

// Why a source of so many bytes has no whole points of that size in its storage.
fn broken(rt: &HostRuntime, file: &str, length: u64, size: u16, storage: Storage) -> Failure
    ensures { status_of result ≡ Status.Trouble }
{
    let what = match storage {
        Storage::Interleaved => "source's point size",
        Storage::Columns => "sum of the source's attribute sizes",
    };
    trouble(
        rt,
        format_args!("\"{file}\" has {length} bytes, which is no multiple of the {what}, {size}"),
    )
}

impl<'a> Conversion<'a> {
    // Says that the target is written whole, and what was lost.
    fn say_done(&self, rt: &HostRuntime, losses: &Losses) -> Result<(), Failure> {
        let points = self.points;
        let length = self.source.length;
        let source = self.job.source;
        let written = self.written;
        let target = self.job.target;
        let lost = losses.in_all();
        let lines = LossLines {
            plan: self.plan,
            losses,
        };
        print_line(
            rt,
            format_args!(
                "{points} points: {length} bytes of \"{source}\" converted into {written} bytes of \"{target}\"; {lost} lost{lines}"
            ),
        )
        .map_err(|e| unsaid(rt, "; the target is whole", e))
    }
}

// Converts the points of an open source by a plan. older: the mode of the file that the target replaces.
fn convert_bytes(
    rt: &HostRuntime,
    job: &Job,
    plan: &Plan,
    source: &Source,
    older: Option<u32>,
) -> Result<(), Failure>
    ensures { points_in source.now.length (point_size_of (layout_in plan.now.source) job.now.options.source) ≡ None → ended result ≡ Status.Trouble }
{
    let options = job.options;
    let size = point_size(plan.source, options.source);
    let Some(points) = points_in(source.length, size) else {
        return Err(broken(rt, job.source, source.length, size, options.source));
    };
    let Some(written) = bytes_of(points, point_size(plan.target, options.target)) else {
        let what = " would be longer than a file can be";
        return Err(unfit(rt, job.target, what));
    };
    warn_of_unmapped(rt, plan);
    let conversion = Conversion {
        job,
        plan,
        source,
        points,
        written,
        older,
    };
    let lost = conversion.write_target(rt)?;
    conversion.say_done(rt, &lost)
}

// Converts by the sheets of that name.
pub(crate) fn convert(rt: &HostRuntime, sheets: &str, job: &Job) -> Result<(), Failure> {
    let opened = open_sheets(rt, sheets)?;
    let plan = plan_in(rt, &opened, sheets)?;
    let older = find_target(rt, job.target, &opened)?;
    let source = open_source(rt, job.source)?;
    convert_bytes(rt, job, &plan, &source, older)
}
