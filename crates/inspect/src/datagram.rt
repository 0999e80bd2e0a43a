// The line that answers a datagram.
ghost use Rattle.std.specs.Prelude.{◌≡◌, ◌++◌, Err, IfOk, OnOk, OnErr};
ghost use Rattle.message.specs.Message.{parse};
ghost use Rattle.inspect.specs.declared.error.LineError.TheVariants.{Rejected};
ghost use Rattle.inspect.specs.Written.{StaysInFront, Written};
ghost use Rattle.inspect.specs.Datagram.{datagram_kind, datagram_text, is_message, message_text, rejection_kind, rejection_text};
ghost use Rattle.inspect.specs.Laws.{ToldByParse};

use crate::error::LineError;
use crate::{fields, options};
use message::MAX_DATAGRAM;
use message::fault::Rejection;
use message::reader::Reader;
use std::alloc::AllocError;
use text::whole_or_nothing;
use transcribe::transcribe;

// What a line of input is: a message, a datagram with a format fault, or anything else.
#[derive(Clone, Copy, PartialEq, Eq, Debug)]
pub enum LineKind {
    Message,
    Fault,
    Other,
}

impl From<Rejection> for LineKind {
    ghost from_gives = { λ why kind. kind ≡ rejection_kind why };

    fn from(why: Rejection) -> LineKind {
        match why {
            Rejection::TooLong | Rejection::NotCoap => LineKind::Other,
            Rejection::Fault(_) => LineKind::Fault,
        }
    }
}

// Whether the datagram is a message, and its fields, written again, give the same bytes. Those of every message do.
fn same_again(datagram: &[u8]) -> bool
    ensures { result ≡ is_message (parse datagram.now) }
{
    let mut buffer = [0; MAX_DATAGRAM];
    match transcribe(datagram, &mut buffer) {
        Ok(size) => &buffer[0..size] == datagram,
        Err(_) => false,
    }
}

// Appends the line of a message. Where the datagram is not a message, `out` stays as it was. Where memory is wanting,
// what was there stays, and a part of the line may follow.
fn push_message(out: &mut Vec<u8>, datagram: &[u8]) -> Result<(), LineError>
    ensures written { Written (message_text datagram.now) out.old.items out.new.items result }
    ensures kept { (why : Rejection) → result ≡ Err (Rejected why) → out.new.items ≡ out.old.items }
    ensures front { StaysInFront out.old.items out.new.items }
{
    let (header, reader) = Reader::open(datagram)?;
    let payload = reader.payload()?;
    if !same_again(datagram) {
        out.extend_from_slice(b"differs\n")?;
        return Ok(());
    }
    fields::push_header(out, &header)?;
    options::push_options(out, reader)?;
    out.push(b' ')?;
    fields::push_bytes(out, payload)?;
    out.push(b'\n')?;
    Ok(())
}

// Appends the line of a datagram that is not a message, and says what the datagram is. Where memory is wanting, what
// was there stays, and a part of the line may follow.
fn push_rejection(out: &mut Vec<u8>, why: Rejection) -> Result<LineKind, AllocError>
    ensures kind { IfOk result (λ kind. kind ≡ rejection_kind why) }
    ensures text { OnOk result (out.new.items ≡ out.old.items ++ rejection_text why) }
    ensures front { StaysInFront out.old.items out.new.items }
{
    match why {
        Rejection::TooLong => out.extend_from_slice(b"refused 3\n")?,
        Rejection::NotCoap => out.extend_from_slice(b"silent 10\n")?,
        Rejection::Fault(fault) => {
            out.extend_from_slice(b"fault ")?;
            text::push_decimal(out, u64::from(fault.cause()))?;
            out.push(b' ')?;
            text::push_decimal(out, fault.place() as u64)?;
            out.push(b'\n')?;
        }
    }
    Ok(LineKind::from(why))
}

// Appends the line of a datagram, and says what the datagram is. Where memory is wanting, `out` stays as it was.
pub fn push_datagram(out: &mut Vec<u8>, datagram: &[u8]) -> Result<LineKind, AllocError>
    ensures kind { IfOk result (λ kind. kind ≡ datagram_kind datagram.now) }
    ensures text { OnOk result (out.new.items ≡ out.old.items ++ datagram_text datagram.now) }
    ensures kept { OnErr result (out.new.items ≡ out.old.items) }
    ensures parsed { ToldByParse }
{
    let before = out.len();
    let pushed = match push_message(out, datagram) {
        Ok(()) => Ok(LineKind::Message),
        Err(LineError::Rejected(why)) => push_rejection(out, why),
        Err(LineError::NoMemory) => Err(AllocError),
    };
    whole_or_nothing(out, before, pushed)
}
