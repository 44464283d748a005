// The target: what stands under its name before, and the part, a file beside it that takes the name when it is whole.
use super::about::{end_of, goes_on, is_link, is_regular};
use super::failure::{Failure, failed, unfit};
use super::lines::tell;
use super::losses::{LossLines, Losses};
use super::names::PartName;
use super::points::{Conversion, Part};
use super::sheets_file::{Sheets, about_sheets};
use open_file::of_descriptor;
use std::fmt::Write;
use std::fs::{File, OpenOptions, Permissions, remove_file, rename};
use std::io::{self, Error, ErrorKind};
use std::os::unix::fs::PermissionsExt;
use std::process::id;

// How many names of parts are tried.
const TRIES: u64 = 100;

// The system's number for a name that is taken.
const EEXIST: i32 = 17;

// The mode of the open file of that name. It may be replaced: it is a regular one that does not hold the sheets. Else why not.
fn replaceable(rt: &HostRuntime, file: &File, name: &str, sheets: &Sheets) -> Result<u32, Failure> {
    let Some(found) = of_descriptor(file).filter(|found| is_regular(found.mode)) else {
        return Err(unfit(rt, name, " is no regular file"));
    };
    let Some(held) = about_sheets(rt, sheets) else {
        let what = " may hold the sheets, of which the system tells nothing, and is not replaced";
        return Err(unfit(rt, name, what));
    };
    if found.device == held.device && found.inode == held.inode {
        return Err(unfit(rt, name, " holds the sheets, and is not replaced"));
    }
    Ok(found.mode)
}

// The mode of what stands under the name, if anything does; where that may not be replaced, why not. The sheets are an open file.
pub(crate) fn find_target(
    rt: &HostRuntime,
    name: &str,
    sheets: &Sheets,
) -> Result<Option<u32>, Failure> {
    if name.is_empty() {
        return Err(unfit(rt, name, " is no file's name"));
    }
    if is_link(rt, name) {
        let what = " is a link: name the file that it leads to";
        return Err(unfit(rt, name, what));
    }
    match OpenOptions::new().read(true).write(true).open(rt, name) {
        Ok(file) => replaceable(rt, &file, name, sheets).map(Some),
        Err(e) if e.kind() == ErrorKind::NotFound => Ok(None),
        Err(e) => Err(failed(rt, "cannot write", name, e)),
    }
}

// ---- the part

// What leads to the directory of a file: its name up to the last slash.
fn directory_of(name: &str) -> &str {
    name.trim_end_matches(|c| c != '/')
}

// Makes a new file, open for writing.
fn create(rt: &HostRuntime, name: &str) -> io::Result<File> {
    OpenOptions::new()
        .write(true)
        .create_new(true)
        .open(rt, name)
}

// Makes a part under a name that no file has: in the target's directory, by the numbers of the process and of the try.
fn make_part(rt: &HostRuntime, target: &str) -> Result<Part, Failure> {
    let directory = directory_of(target);
    let process = id(rt.process());
    for tries in 0..TRIES {
        let mut name = PartName::new();
        // it fits
        let _ = write!(name, "{directory}nakvisk.{process}.{tries}.part");
        match create(rt, name.as_str()) {
            Ok(file) => return Ok(Part { file, name }),
            Err(e) if e.kind() == ErrorKind::AlreadyExists => {}
            Err(e) => return Err(failed(rt, "cannot make a part of", target, e)),
        }
    }
    let taken = Error::from_raw_os_error(EEXIST);
    Err(failed(rt, "cannot make a part of", target, taken))
}

// Waits until the target's new name has reached its device, where its file system can tell.
fn sync_directory(rt: &HostRuntime, target: &str) -> io::Result<()> {
    let directory = match directory_of(target) {
        "" => File::open(rt, ".")?,
        name => File::open(rt, name)?,
    };
    match directory.sync_all() {
        Err(e) if e.kind() == ErrorKind::InvalidInput => Ok(()),
        synced => synced,
    }
}

impl<'a> Conversion<'a> {
    // Converts the points into the part, which is whole then; else why it is not.
    fn fill(&self, rt: &HostRuntime, part: &Part) -> Result<Losses, Failure> {
        let lost = self.convert_all(rt, part)?;
        let source = self.source;
        if goes_on(&source.file, source.length) {
            return Err(unfit(rt, self.job.source, " grew while it was read"));
        }
        if end_of(&part.file).unwrap_or(0) != self.written {
            let what = " was changed while it was written";
            return Err(unfit(rt, part.name.as_str(), what));
        }
        Ok(lost)
    }

    // Gives the part the mode of the file that it replaces, where there is one, and waits until its bytes have reached their device.
    fn finish(&self, rt: &HostRuntime, part: &Part) -> Result<(), Failure> {
        let file = &part.file;
        let name = part.name.as_str();
        if let Some(mode) = self.older {
            file.set_permissions(Permissions::from_mode(mode & 0o7777))
                .map_err(|e| failed(rt, "cannot give the older mode to", name, e))?;
        }
        file.sync_all()
            .map_err(|e| failed(rt, "cannot write", name, e))
    }

    // Converts the points into the part, and finishes it where a target may be made.
    fn write_part(&self, rt: &HostRuntime, part: &Part) -> Result<Losses, Failure> {
        let lost = self.fill(rt, part)?;
        if !lost.are_forbidden(self.job.options.whole) {
            self.finish(rt, part)?;
        }
        Ok(lost)
    }

    // Removes the part of a target that is not made, and says what has become of both.
    fn abandon(&self, rt: &HostRuntime, part: &str) {
        let target = self.job.target;
        match (remove_file(rt, part), self.older) {
            (Err(e), _) => {
                failed(rt, "cannot remove", part, e);
            }
            (Ok(()), Some(_)) => tell(
                rt,
                format_args!("\"{part}\" was removed; \"{target}\" is as it was"),
            ),
            (Ok(()), None) => tell(
                rt,
                format_args!("\"{part}\" was removed, and no \"{target}\" was made"),
            ),
        }
    }

    // Removes the part for what would be lost, and says it.
    fn forbid(&self, rt: &HostRuntime, part: &str, losses: &Losses) -> Failure {
        if let Err(e) = remove_file(rt, part) {
            failed(rt, "cannot remove", part, e);
        }
        let lost = losses.in_all();
        let target = self.job.target;
        let fate = match self.older {
            Some(_) => "is as it was",
            None => "is not made",
        };
        let lines = LossLines {
            plan: self.plan,
            losses,
        };
        tell(
            rt,
            format_args!("{lost} would be lost; \"{target}\" {fate}{lines}"),
        );
        Failure::Losing
    }

    // Gives the whole part the target's name.
    fn name_part(&self, rt: &HostRuntime, part: &str) -> Result<(), Failure> {
        let target = self.job.target;
        if let Err(e) = rename(rt, part, target) {
            let failure = failed(rt, "cannot replace", target, e);
            self.abandon(rt, part);
            return Err(failure);
        }
        let what = "the target is whole, but cannot sync the directory of";
        sync_directory(rt, target).map_err(|e| failed(rt, what, target, e))
    }

    // Converts the points into a part, and gives it the target's name. Where no target is made, the part is removed.
    pub(crate) fn write_target(&self, rt: &HostRuntime) -> Result<Losses, Failure> {
        let whole = self.job.options.whole;
        let part = make_part(rt, self.job.target)?;
        let written = self.write_part(rt, &part);
        let Part { file, name } = part;
        drop(file);
        let part = name.as_str();
        match written {
            Err(failure) => {
                self.abandon(rt, part);
                Err(failure)
            }
            Ok(lost) if lost.are_forbidden(whole) => Err(self.forbid(rt, part, &lost)),
            Ok(lost) => {
                self.name_part(rt, part)?;
                Ok(lost)
            }
        }
    }
}
