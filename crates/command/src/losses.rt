// How many components each mapping lost, added up block after block and in all, and the text that tells it. A number that 64 bits do not hold
// stays at the largest that they do.
ghost use Rattle.std.specs.Prelude.{◌≡◌};
ghost use Rattle.command.specs.Losses.{added_counts, forbids, held_total};

use super::names::name_of;
use plans::plan::Plan;
use std::fmt;
use std::fmt::Display;

// How many components each mapping of a plan lost.
#[derive(Clone, Copy)]
pub(crate) struct Losses {
    counts: [u64; 32],
}

impl Losses {
    pub(crate) fn none() -> Losses {
        Losses { counts: [0; 32] }
    }

    // With those of one block more.
    pub(crate) fn with(&self, more: [u64; 32]) -> Losses
        ensures { result.counts ≡ added_counts self.now.counts more }
    {
        let mut counts = [0; 32];
        for i in 0..32 {
            counts[i] = self.counts[i].saturating_add(more[i]);
        }
        Losses { counts }
    }

    fn total(&self) -> u64
        ensures { result ≡ held_total self.now.counts }
    {
        let mut total = 0u64;
        for count in &self.counts {
            total = total.saturating_add(*count);
        }
        total
    }

    // Whether no target may be made: where nothing may be lost (`whole`, an option of the command line), and something was.
    pub(crate) fn are_forbidden(&self, whole: bool) -> bool
        ensures { result ≡ forbids whole self.now.counts }
    {
        whole && 0 < self.total()
    }

    // All that were lost.
    pub(crate) fn in_all(&self) -> Components {
        Components(self.total())
    }
}

// So many components.
#[derive(Clone, Copy)]
pub(crate) struct Components(u64);

impl Display for Components {
    fn fmt<W: fmt::Write>(&self, f: &mut fmt::Formatter<W>) -> fmt::Result {
        let number = self.0;
        if number == 1 {
            f.write_str("1 component")
        } else {
            write!(f, "{number} components")
        }
    }
}

// A line for each mapping of the plan that lost, each behind a line feed, in the plan's order.
#[derive(Clone, Copy)]
pub(crate) struct LossLines<'a> {
    pub(crate) plan: &'a Plan,
    pub(crate) losses: &'a Losses,
}

impl<'a> Display for LossLines<'a> {
    fn fmt<W: fmt::Write>(&self, f: &mut fmt::Formatter<W>) -> fmt::Result {
        let plan = self.plan;
        let losses = self.losses;
        let mappings = plan.mappings.iter().take(plan.count as usize);
        for (mapping, count) in mappings.zip(losses.counts.iter()) {
            if let Some(member) = plan.target.attributes.get(mapping.target as usize)
                && 0 < *count
            {
                let name = name_of(&member.attribute_definition);
                let lost = Components(*count);
                write!(f, "\n  \"{name}\": {lost} lost")?;
            }
        }
        Ok(())
    }
}
