// What stands before the options of a message.
ghost use Rattle.std.specs.Prelude.{◌≡◌, ◌/◌, ◌%◌, ◌<◌, Some};
ghost use Rattle.message.specs.Header.{type_bits, type_of};
ghost use Rattle.message.specs.Texts.{code_text, type_text};

use std::fmt;

// The type of a message: confirmable, non-confirmable, acknowledgement or Reset.
#[derive(Clone, Copy, PartialEq, Eq, Debug)]
pub enum MessageType {
    Con = 0,
    Non = 1,
    Ack = 2,
    Rst = 3,
}

impl MessageType {
    // The two bits that stand for the type in a header.
    pub(crate) fn bits(self) -> u8
        ensures { result ≡ type_bits self }
    {
        self as u8
    }

    // The type that the two lowest bits of `bits` stand for. It is no `TryFrom`, since any two bits stand for a type.
    pub(crate) fn from_bits(bits: u8) -> MessageType
        ensures { result ≡ type_of (bits % 4) }
    {
        match bits % 4 {
            0 => MessageType::Con,
            1 => MessageType::Non,
            2 => MessageType::Ack,
            _ => MessageType::Rst,
        }
    }
}

// The name that a type has in RFC 7252.
impl fmt::Display for MessageType {
    ghost output = { λ kind. Some (type_text kind) };

    fn fmt<W: fmt::Write>(&self, f: &mut fmt::Formatter<W>) -> fmt::Result {
        f.pad(match self {
            MessageType::Con => "CON",
            MessageType::Non => "NON",
            MessageType::Ack => "ACK",
            MessageType::Rst => "RST",
        })
    }
}

// A code c.dd as its byte, 32 * c + dd. 0.00 is the code of an Empty message.
#[derive(Clone, Copy, PartialEq, Eq, Debug)]
pub struct Code(pub u8);

// The code of an Empty message.
pub const EMPTY: Code = Code(0);

impl Code {
    // The class c, 0 to 7: 0 for a request, 2, 4 or 5 for a response.
    pub fn class(self) -> u8
        ensures value { result ≡ self.0 / 32 }
        ensures range { result < 8 }
    {
        self.0 / 32
    }

    // The detail dd.
    pub fn detail(self) -> u8
        ensures { result ≡ self.0 % 32 }
    {
        self.0 % 32
    }
}

// The class, a dot, and the detail in two digits: 2.05.
impl fmt::Display for Code {
    ghost output = { λ code. Some (code_text code.0) };

    fn fmt<W: fmt::Write>(&self, f: &mut fmt::Formatter<W>) -> fmt::Result {
        let class = self.class();
        let detail = self.detail();
        write!(f, "{class}.{detail:02}")
    }
}

// What comes before the options; the token is a part of the datagram.
#[derive(Clone, Copy, PartialEq, Eq, Debug)]
pub struct Header<'a> {
    pub kind: MessageType,
    pub code: Code,
    pub id: u16,
    pub token: &'a [u8],
}
