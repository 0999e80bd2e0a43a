// What an arrival and a tally are answered.
ghost use Rattle.std.specs.Prelude.{◌≡◌};
ghost use Rattle.calls.specs.Numbers.{refusal_number, silence_number};

use crate::report::Report;
use register::bytes::Bytes;

// A reply of so many bytes at the front of the buffer, silence, or a refusal. Silence is an answer and no failure, so it is
// no `Result`.
#[derive(Clone, Copy, PartialEq, Eq, Debug)]
pub enum Answer {
    Reply(usize),
    Silent(Silence),
    Refused(Refusal),
}

// The answer to an arrival, and why it was not carried to the register, where it was not.
#[derive(Clone, Copy, PartialEq, Eq, Debug)]
pub struct Outcome {
    pub answer: Answer,
    pub report: Option<Report>,
}

// How many arrivals ended as done, repeated, silenced and dropped.
#[derive(Clone, Copy, Default, PartialEq, Eq, Debug)]
pub struct Counts {
    pub done: u32,
    pub repeated: u32,
    pub silenced: u32,
    pub dropped: u32,
}

// What a call is answered, with the bytes of the reply. It holds no `Answer` with bytes in it: what holds an enum that holds a
// value with a model cannot be carried past a `?`, so no list of such answers could be made.
#[derive(Clone, Copy, PartialEq, Eq, Debug)]
pub enum Served {
    Reply(Bytes<320>),
    Silent(Silence),
    Refused(Refusal),
    Tallied(Counts),
}

// Why the server takes no notice of an arrival; the host called it wrongly, and nothing has changed.
#[derive(Clone, Copy, PartialEq, Eq, Debug)]
pub enum Refusal {
    // A moment before the last accepted one, or from 2^48 on.
    Moment = 1,
    // A reply buffer under 320 bytes.
    ReplyBuffer = 2,
    // A datagram over 480 bytes.
    Datagram = 3,
    // 4,294,967,295 arrivals were accepted already.
    Arrivals = 4,
}

impl Refusal {
    // The number of the refusal, 1 to 4.
    pub fn number(self) -> u8
        ensures { result ≡ refusal_number self }
    {
        self as u8
    }
}

// Why an arrival gets no reply.
#[derive(Clone, Copy, PartialEq, Eq, Debug)]
pub enum Silence {
    NotCoap = 10,
    Fault = 11,
    Empty = 12,
    NotRequest = 13,
    UnknownOption = 14,
    // The copy of a change that is not confirmable.
    Copy = 15,
    // No deduplication record is free.
    NoRecord = 16,
}

impl Silence {
    // The number of the silence, 10 to 16.
    pub fn number(self) -> u8
        ensures { result ≡ silence_number self }
    {
        self as u8
    }
}
