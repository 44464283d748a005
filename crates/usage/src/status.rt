// How a run ended, and the exit status that tells it.
ghost use Rattle.std.specs.Prelude.{◌≡◌};
ghost use Rattle.usage.specs.Status.{status_number};

#[derive(Clone, Copy)]
pub enum Status {
    Done = 0,
    // with a refusal's number
    Refused = 1,
    // a file cannot be read or written, or is not what it has to be
    Trouble = 2,
    // numbers would be lost, and the options forbid it
    Lost = 3,
    // wrong usage
    Wrong = 64,
}

#[tactic(auto, unfolding(crate::specs::Status::status_number))]
pub fn status_number(status: Status) -> u32
    ensures { result ≡ status_number status }
{
    status as u32
}
