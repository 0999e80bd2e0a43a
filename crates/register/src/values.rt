// What a resource is asked and what it answers.
ghost use Rattle.std.specs.Prelude.{◌≡◌, ◌^◌, ◌<◌, ◌≤◌, Ok, Err};

use crate::bytes::{Bytes, ValueError};
use crate::path::Path;

// A count of milliseconds below 2^48.
#[derive(Clone, Copy, PartialEq, Eq, Debug)]
pub struct Moment {
    ms: u64,
    ghost early: { ms < 2 ^ 48 },
}

impl Moment {
    pub fn new(ms: u64) -> Result<Moment, ValueError>
        ensures { elim result [ Ok t ↦ t.ms ≡ ms | Err _ ↦ 2 ^ 48 ≤ ms ] }
    {
        if ms < 281_474_976_710_656 {
            Ok(Moment { ms })
        } else {
            Err(ValueError)
        }
    }

    pub fn millis(self) -> u64
        ensures value { result ≡ self.ms }
        ensures bound { result < 2 ^ 48 }
    {
        self.ms
    }
}

// How a register may be changed.
#[derive(Clone, Copy, PartialEq, Eq, Debug)]
pub enum Method {
    Put,
    Post,
    Delete,
}

// 2.05 or 4.04, the codes of a read. A type beside `ChangeCode`: a read has no other code, and a change has never 2.05.
#[derive(Clone, Copy, PartialEq, Eq, Debug)]
pub enum ReadCode {
    Content = 69,
    NotFound = 132,
}

impl ReadCode {
    ghost use Rattle.register.specs.Values.{read_code_byte};

    // The byte of the code.
    pub fn byte(self) -> u8
        ensures { result ≡ read_code_byte self }
    {
        self as u8
    }
}

// The codes of a change: 2.01, 2.02 and 2.04, and the errors 4.xx and 5.xx by their names in RFC 7252 and RFC 8132.
#[derive(Clone, Copy, PartialEq, Eq, Debug)]
pub enum ChangeCode {
    Created = 65,
    Deleted = 66,
    Changed = 68,
    BadRequest = 128,
    Unauthorized = 129,
    BadOption = 130,
    Forbidden = 131,
    NotFound = 132,
    MethodNotAllowed = 133,
    NotAcceptable = 134,
    RequestEntityIncomplete = 136,
    Conflict = 137,
    PreconditionFailed = 140,
    RequestEntityTooLarge = 141,
    UnsupportedContentFormat = 143,
    UnprocessableEntity = 150,
    InternalServerError = 160,
    NotImplemented = 161,
    BadGateway = 162,
    ServiceUnavailable = 163,
    GatewayTimeout = 164,
    ProxyingNotSupported = 165,
}

impl ChangeCode {
    ghost use Rattle.register.specs.Values.{code_byte};

    // The byte of the code.
    pub fn byte(self) -> u8
        ensures { result ≡ code_byte self }
    {
        self as u8
    }
}

// A change of the register at a path.
#[derive(Clone, Copy, PartialEq, Eq, Debug)]
pub struct ChangeRequest {
    pub method: Method,
    pub path: Path,
    pub body: Bytes<256>,
}

// What a GET gives: the code, the body, and for how many seconds it stays true.
#[derive(Clone, Copy, PartialEq, Eq, Debug)]
pub struct ReadAnswer {
    pub code: ReadCode,
    pub body: Bytes<256>,
    pub max_age: u32,
}

impl ReadAnswer {
    ghost use Rattle.register.specs.Model.{bytes_of, read_of};
    ghost use Rattle.register.specs.Values.{content_read, nothing};

    // 2.05 with a body, and the seconds for which it stays true.
    pub fn content(body: Bytes<256>, max_age: u32) -> ReadAnswer
        ensures { read_of result ≡ content_read (bytes_of body) max_age }
    {
        ReadAnswer {
            code: ReadCode::Content,
            body,
            max_age,
        }
    }

    // 4.04, which stays true for no time.
    pub fn not_found() -> ReadAnswer
        ensures { read_of result ≡ nothing }
    {
        ReadAnswer {
            code: ReadCode::NotFound,
            body: Bytes::empty(),
            max_age: 0,
        }
    }
}

// What a change is answered with; the Max-Age is used with 5.03 alone, and what a GET gives always has one: so they are two
// types.
#[derive(Clone, Copy, PartialEq, Eq, Debug)]
pub struct ChangeAnswer {
    pub code: ChangeCode,
    pub body: Bytes<16>,
    pub max_age: u32,
}

impl ChangeAnswer {
    ghost use Rattle.register.specs.Model.{said_of};
    ghost use Rattle.register.specs.Values.{bare};

    // A code without a body.
    pub fn bare(code: ChangeCode) -> ChangeAnswer
        ensures { said_of result ≡ bare code }
    {
        ChangeAnswer {
            code,
            body: Bytes::empty(),
            max_age: 0,
        }
    }
}
