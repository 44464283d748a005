// The library's functions for C and Rust, over sheets, layouts, plans and lent bytes. Each answers 0, or the number of the first refusal
// that applies, and then everything that was lent is as it was.
#![tactic(auto)]

pub mod layout_calls;
pub mod plan_calls;
pub mod point_calls;
pub mod sheet_calls;

ghost use Rattle.std.specs.Prelude.{◌≡◌};
ghost use Rattle.common.specs.Refusal.{answered};
ghost use Rattle.nakvisk.specs.Calls.{number_in, version};

use common::Refusal;

// The archive's version: the major number's 16 bits, then 8 bits of the minor one and 8 of the patch.
pub fn nakvisk_version() -> u32
    ensures { result ≡ version }
{
    0x000800
}

// 0 where nothing is refused, else the number.
#[tactic(auto, unfolding(crate::specs::Calls::number_in))]
pub(crate) fn returned(done: Result<(), Refusal>) -> u32
    ensures { result ≡ number_in (answered done) }
{
    match done {
        Ok(()) => 0,
        Err(refusal) => refusal.number() as u32,
    }
}
