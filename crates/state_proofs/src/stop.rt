//! Why a search stops early.

use crate::refusal::Refusal;
use std::alloc::{AllocError, AllocFailed};

/// Why a search ends without a proof.
#[derive(Clone, Copy, Debug, PartialEq, Eq)]
pub enum Stop {
    /// No step is left.
    Steps,
    /// This refusal came first.
    Refused(Refusal),
}

impl From<Refusal> for Stop {
    ghost use Rattle.std.specs.Prelude.{◌≡◌};
    ghost use Rattle.state_proofs.specs.declared.stop.Stop.TheVariants.{Refused};

    ghost from_gives = { λ refusal stop. stop ≡ Refused refusal };

    fn from(refusal: Refusal) -> Stop {
        Stop::Refused(refusal)
    }
}

impl From<AllocError> for Stop {
    ghost use Rattle.std.specs.Prelude.{◌≡◌};
    ghost use Rattle.state_proofs.specs.declared.refusal.Refusal.TheVariants.{Memory};
    ghost use Rattle.state_proofs.specs.declared.stop.Stop.TheVariants.{Refused};

    ghost from_gives = { λ _ stop. stop ≡ Refused Memory };

    fn from(_error: AllocError) -> Stop {
        Stop::Refused(Refusal::Memory)
    }
}

impl<T: Drop> From<AllocFailed<T>> for Stop {
    ghost use Rattle.std.specs.Prelude.{◌≡◌};
    ghost use Rattle.state_proofs.specs.declared.refusal.Refusal.TheVariants.{Memory};
    ghost use Rattle.state_proofs.specs.declared.stop.Stop.TheVariants.{Refused};

    ghost from_gives = { λ _ stop. stop ≡ Refused Memory };

    fn from(_error: AllocFailed<T>) -> Stop {
        Stop::Refused(Refusal::Memory)
    }
}
