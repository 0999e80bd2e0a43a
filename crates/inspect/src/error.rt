// Why no line is written for a message.
ghost use Rattle.std.specs.Prelude.{◌≡◌};
ghost use Rattle.message.specs.declared.fault.Rejection.TheVariants.{Fault};
ghost use Rattle.inspect.specs.declared.error.LineError.TheVariants.{NoMemory, Rejected};

use message::fault::{MessageFault, Rejection};
use std::alloc::{AllocError, AllocFailed};

// The datagram is not a message, or memory is wanting.
#[derive(Clone, Copy)]
pub enum LineError {
    Rejected(Rejection),
    NoMemory,
}

impl From<Rejection> for LineError {
    ghost from_gives = { λ why r. r ≡ Rejected why };

    fn from(why: Rejection) -> LineError {
        LineError::Rejected(why)
    }
}

impl From<MessageFault> for LineError {
    ghost from_gives = { λ fault r. r ≡ Rejected (Fault fault) };

    fn from(fault: MessageFault) -> LineError {
        LineError::Rejected(Rejection::Fault(fault))
    }
}

impl From<AllocError> for LineError {
    ghost from_gives = { λ _ r. r ≡ NoMemory };

    fn from(_why: AllocError) -> LineError {
        LineError::NoMemory
    }
}

impl<T: Drop> From<AllocFailed<T>> for LineError {
    ghost from_gives = { λ _ r. r ≡ NoMemory };

    fn from(_why: AllocFailed<T>) -> LineError {
        LineError::NoMemory
    }
}
