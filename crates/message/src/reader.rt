// The reader: the header of a datagram, and then its options one by one. It copies nothing.
ghost use Rattle.std.specs.Prelude.{◌≤◌, length};

use crate::fault::{MessageFault, OptionFault, Rejection};
use crate::header::{Code, Header, MessageType};
use crate::nibble::{extended_size, extended_value};
use crate::option::{MessageOption, OptionField};
use crate::{MAX_DATAGRAM, PAYLOAD_MARKER};

// A datagram, the place reached in it and the number of the option before that place. It is `Copy` and keeps the whole
// datagram, as the project's rules want of values.
#[derive(Clone, Copy)]
pub struct Reader<'a> {
    datagram: &'a [u8],
    at: usize,
    number: u16,
    ghost within: { at ≤ length datagram.now },
}

impl<'a> Reader<'a> {
    ghost use Rattle.std.specs.Prelude.{◌≡◌, ◌+◌, ◌/◌, ◌%◌, length, drop, Ok, Err};
    ghost use Rattle.message.specs.Header.{opening, opens, rejected};
    ghost use Rattle.message.specs.Options.{opened, payload_of};
    ghost use Rattle.message.specs.Reading.{head_of, option_step, next_step, read_answer, next_answer, step_of, options_of, Moved, payload_after};

    // The header of a message and the reader of its options.
    pub fn open(datagram: &'a [u8]) -> Result<(Header<'a>, Reader<'a>), Rejection>
        ensures { elim result [ Ok p ↦ (opening datagram.now ≡ opens (head_of p.0) p.1.at) × (p.1.datagram ≡ datagram.entry) × (p.1.number ≡ 0) | Err why ↦ opening datagram.now ≡ rejected why ] }
    {
        if datagram.len() > MAX_DATAGRAM {
            return Err(Rejection::TooLong);
        }
        let [first, code, high, low, rest @ ..] = datagram else {
            return Err(Rejection::NotCoap);
        };
        if *first / 64 != 1 {
            return Err(Rejection::NotCoap);
        }
        let token_length = (*first % 16) as usize;
        if token_length > 8 {
            return Err(Rejection::Fault(MessageFault::TokenLength));
        }
        if *code == 0 && token_length + rest.len() > 0 {
            return Err(Rejection::Fault(MessageFault::EmptyWithContent));
        }
        if rest.len() < token_length {
            return Err(Rejection::Fault(MessageFault::TokenTruncated(datagram.len())));
        }
        let id = u16::from_be_bytes([*high, *low]);
        let kind = MessageType::from_bits(*first / 16);
        let header = Header {
            kind,
            code: Code(*code),
            id,
            token: &rest[0..token_length],
        };
        Ok((
            header,
            Reader {
                datagram,
                at: 4 + token_length,
                number: 0,
            },
        ))
    }

    // The next option, or none where the options have ended. At a fault and at the end the reader stays where it is. No
    // `Iterator`, since callers leave at a fault by `?`, and a `for` would give each option as a `Result` to take apart.
    pub fn next(&mut self) -> Result<Option<MessageOption<'a>>, MessageFault>
        ensures answer { read_answer result ≡ next_answer (step_of self.old) }
        ensures after { Moved (step_of self.old) self.old self.new }
    {
        match self.step()? {
            None => Ok(None),
            Some((option, after)) => {
                self.at = after;
                self.number = option.field().number;
                Ok(Some(option))
            }
        }
    }

    // The payload behind the options that are still to come. The reader stays where it is.
    pub fn payload(&self) -> Result<&'a [u8], MessageFault>
        ensures { elim result [ Ok bytes ↦ payload_after self.now.datagram.now (options_of self.now) ≡ Ok bytes.now | Err why ↦ payload_after self.now.datagram.now (options_of self.now) ≡ Err why ] }
    {
        let mut rest = *self;
        while let Some(_option) = rest.next()? {}
        Ok(rest.behind())
    }

    // What stands where the reader is: an option and the place after it, or no further option.
    fn step(&self) -> Result<Option<(MessageOption<'a>, usize)>, OptionFault>
        ensures { next_step result ≡ step_of self.now }
    {
        match &self.datagram[self.at..] {
            [] => Ok(None),
            [PAYLOAD_MARKER] => Err(OptionFault::NoPayload(self.at)),
            [PAYLOAD_MARKER, ..] => Ok(None),
            [first, body @ ..] => Ok(Some(self.option(*first, body)?)),
        }
    }

    // The option whose first byte stands where the reader is, with `body` after it, and the place after the option.
    fn option(&self, first: u8, body: &'a [u8]) -> Result<(MessageOption<'a>, usize), OptionFault>
        requires { self.now.at + 1 + length body.now ≡ length self.now.datagram.now }
        ensures { option_step result ≡ opened self.now.at self.now.number (first / 16) (first % 16) body.now }
    {
        let delta = first / 16;
        let len = first % 16;
        if delta == 15 || len == 15 {
            return Err(OptionFault::ReservedNibble(self.at));
        }
        let skip = extended_size(delta);
        let head = skip + extended_size(len);
        if body.len() < head {
            return Err(OptionFault::Truncated(self.datagram.len()));
        }
        let number = u32::from(self.number) + extended_value(delta, body);
        let Ok(number) = u16::try_from(number) else {
            return Err(OptionFault::NumberTooHigh(self.at));
        };
        let length = extended_value(len, &body[skip..]) as usize;
        let Some(value) = body[head..].get(..length) else {
            return Err(OptionFault::Truncated(self.datagram.len()));
        };
        let place = self.at + 1 + head;
        let field = OptionField {
            number,
            place,
            value,
        };
        Ok((MessageOption::by_kind(self.number, field), place + length))
    }

    // What stands behind the payload marker where the reader is; nothing where the datagram has ended.
    fn behind(&self) -> &'a [u8]
        ensures { result.now ≡ payload_of (drop self.now.at self.now.datagram.now) }
    {
        match &self.datagram[self.at..] {
            [] => &[],
            [_marker, payload @ ..] => payload,
        }
    }
}
