// How far a conversion is, said where it takes long.
use super::lines::tell;
use std::rt::Clock;

// The least number of seconds between two lines.
const SECONDS_BETWEEN: u64 = 2;

// When the last line was said, in seconds, or else when the conversion began.
#[derive(Clone, Copy)]
pub(crate) struct Progress {
    last: u64,
}

impl Progress {
    pub(crate) fn begin(rt: &HostRuntime) -> Progress {
        Progress { last: seconds(rt) }
    }

    // Says how many of the points are done, where the last line is old enough.
    pub(crate) fn show(&mut self, rt: &HostRuntime, done: u64, points: u64) {
        let now = seconds(rt);
        if SECONDS_BETWEEN <= now.saturating_sub(self.last) {
            tell(rt, format_args!("{done} of {points} points"));
            self.last = now;
        }
    }
}

// Seconds since some moment, 0 where no clock answers.
fn seconds(rt: &HostRuntime) -> u64 {
    rt.since_1970().map_or(0, |time| time.as_secs())
}
