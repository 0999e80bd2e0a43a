// Why an arrival was not carried to the register.
ghost use Rattle.std.specs.Prelude.{◌≡◌};
ghost use Rattle.message.specs.declared.fault.Rejection.TheVariants.{Fault};
ghost use Rattle.calls.specs.declared.report.Report.TheVariants.{Unreadable};

use message::fault::{MessageFault, Rejection};

// An option by its number and the place in the datagram where its value begins.
#[derive(Clone, Copy, PartialEq, Eq, Debug)]
pub struct OptionAt {
    pub number: u16,
    pub place: usize,
}

// Why a datagram is not carried to the register. What the reader found wrong is kept whole, cause and place.
#[derive(Clone, Copy, PartialEq, Eq, Debug)]
pub enum Report {
    Unreadable(Rejection),
    // The code 0.00.
    Empty,
    // An acknowledgement, a Reset, or a code whose class is not 0.
    NotRequest,
    // An option that is not understood.
    UnknownOption(OptionAt),
    Proxy,
    // A method other than GET, POST, PUT and DELETE.
    Method,
    // A path that no resource can have.
    Path,
    // A payload over 256 bytes.
    Payload,
}

impl From<Rejection> for Report {
    ghost from_gives = { λ why r. r ≡ Unreadable why };

    fn from(why: Rejection) -> Report {
        Report::Unreadable(why)
    }
}

impl From<MessageFault> for Report {
    ghost from_gives = { λ fault r. r ≡ Unreadable (Fault fault) };

    fn from(fault: MessageFault) -> Report {
        Report::Unreadable(Rejection::Fault(fault))
    }
}
