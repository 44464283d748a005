// The exports of the static library: each calls the function of that name of the library nakvisk, under the same clauses.
#![tactic(auto)]

mod layout_calls;
mod plan_calls;
mod point_calls;
mod sheet_calls;

ghost use Rattle.std.specs.Prelude.{◌≡◌};
ghost use Rattle.nakvisk.specs.Calls.{version};

// The archive's version: the major number's 16 bits, then 8 bits of the minor one and 8 of the patch.
#[unsafe(no_mangle)]
pub extern "C" fn nakvisk_version() -> u32
    ensures { result ≡ version }
{
    nakvisk::nakvisk_version()
}
