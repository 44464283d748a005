// The given members lent as a list of records: one thin function takes the list apart, over the form by value (point_layout.rs).
#![tactic(auto)]

ghost use Rattle.std.specs.Prelude.{◌≡◌};
ghost use Rattle.common.specs.Refusal.{outcome_of};
ghost use Rattle.members.specs.Members.{members_answer};

use common::Refusal;
use layout::point_layout::{PointAttributeMember, PointLayout};

// The members at the offsets that they give, in any order; 3 where there are more than 32.
pub fn from_members_and_alignment(
    members: &[PointAttributeMember],
    alignment: u16,
) -> Result<PointLayout, Refusal>
    ensures { outcome_of result ≡ members_answer members.now alignment }
{
    let mut all = PointLayout::default().attributes;
    let listed = members.len().min(32);
    all[..listed].copy_from_slice(&members[..listed]);
    PointLayout::from_members_and_alignment(all, members.len(), alignment)
}
