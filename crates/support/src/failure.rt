// Why a recording was not run again.
ghost use Rattle.std.specs.Prelude.{◌≡◌};
ghost use Rattle.support.specs.declared.failure.Failure.TheVariants.{Refused, NoMemory};

use fault::Fault;
use std::alloc::AllocError;

// A fault, of the reservation or of the test; or want of memory for the replies.
#[derive(Clone, Copy, Debug)]
pub enum Failure {
    Refused(Fault),
    NoMemory,
}

impl From<Fault> for Failure {
    ghost from_gives = { λ f r. r ≡ Refused f };

    fn from(fault: Fault) -> Failure {
        Failure::Refused(fault)
    }
}

impl From<AllocError> for Failure {
    ghost from_gives = { λ _ r. r ≡ NoMemory };

    fn from(_error: AllocError) -> Failure {
        Failure::NoMemory
    }
}
