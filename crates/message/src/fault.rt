// Why a datagram is not a message.
ghost use Rattle.std.specs.Prelude.{◌≡◌};
ghost use Rattle.message.specs.declared.fault.MessageFault.TheVariants.{InOption};
ghost use Rattle.message.specs.declared.fault.Rejection.TheVariants.{Fault};
ghost use Rattle.message.specs.Faults.{option_cause, option_place, cause_of, place_of, rejection_number};

// A fault in the coding of an option, with its place in the datagram.
#[derive(Clone, Copy, PartialEq, Eq, Debug)]
pub enum OptionFault {
    ReservedNibble(usize),
    Truncated(usize),
    NumberTooHigh(usize),
    NoPayload(usize),
}

impl OptionFault {
    // A `match`, since variants that hold a place can have no discriminants.
    fn cause(self) -> u8
        ensures { result ≡ option_cause self }
    {
        match self {
            OptionFault::ReservedNibble(_) => 4,
            OptionFault::Truncated(_) => 5,
            OptionFault::NumberTooHigh(_) => 6,
            OptionFault::NoPayload(_) => 7,
        }
    }

    fn place(self) -> usize
        ensures { result ≡ option_place self }
    {
        match self {
            OptionFault::ReservedNibble(place)
            | OptionFault::Truncated(place)
            | OptionFault::NumberTooHigh(place)
            | OptionFault::NoPayload(place) => place,
        }
    }
}

// A format fault; that of an option is kept whole.
#[derive(Clone, Copy, PartialEq, Eq, Debug)]
pub enum MessageFault {
    TokenLength,
    EmptyWithContent,
    TokenTruncated(usize),
    InOption(OptionFault),
}

impl MessageFault {
    // The number of the cause, 1 to 7. A `match`, since variants that hold a place can have no discriminants.
    pub fn cause(self) -> u8
        ensures { result ≡ cause_of self }
    {
        match self {
            MessageFault::TokenLength => 1,
            MessageFault::EmptyWithContent => 2,
            MessageFault::TokenTruncated(_) => 3,
            MessageFault::InOption(fault) => fault.cause(),
        }
    }

    // The place in the datagram, counted from 0.
    pub fn place(self) -> usize
        ensures { result ≡ place_of self }
    {
        match self {
            MessageFault::TokenLength => 0,
            MessageFault::EmptyWithContent => 1,
            MessageFault::TokenTruncated(place) => place,
            MessageFault::InOption(fault) => fault.place(),
        }
    }
}

impl From<OptionFault> for MessageFault {
    ghost from_gives = { λ f r. r ≡ InOption f };

    fn from(inner: OptionFault) -> MessageFault {
        MessageFault::InOption(inner)
    }
}

// Why a reader does not take a datagram: it is longer than any message may be, it is not one of this version of
// CoAP, or it has a format fault.
#[derive(Clone, Copy, PartialEq, Eq, Debug)]
pub enum Rejection {
    TooLong,
    NotCoap,
    Fault(MessageFault),
}

impl Rejection {
    // The number under which it is reported: 3, 10 or 11. A `match`, since `Fault` holds a fault and can have none.
    pub fn number(self) -> u8
        ensures { result ≡ rejection_number self }
    {
        match self {
            Rejection::TooLong => 3,
            Rejection::NotCoap => 10,
            Rejection::Fault(_) => 11,
        }
    }
}

impl From<MessageFault> for Rejection {
    ghost from_gives = { λ f r. r ≡ Fault f };

    fn from(inner: MessageFault) -> Rejection {
        Rejection::Fault(inner)
    }
}
