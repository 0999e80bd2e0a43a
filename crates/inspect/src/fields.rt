// The fields of a message as text. Where memory is wanting, what was there stays, and a part of the text may follow.
ghost use Rattle.std.specs.Prelude.{◌≡◌, ◌++◌, OnOk};
ghost use Rattle.message.specs.Reading.{head_of};
ghost use Rattle.message.specs.Texts.{code_text, type_text};
ghost use Rattle.inspect.specs.Fields.{bytes_text, head_text};
ghost use Rattle.inspect.specs.Written.{StaysInFront};

use message::header::{Code, Header, MessageType};
use std::alloc::AllocError;

// Appends bytes in hexadecimal, or `-` where there are none.
pub fn push_bytes(out: &mut Vec<u8>, bytes: &[u8]) -> Result<(), AllocError>
    ensures text { OnOk result (out.new.items ≡ out.old.items ++ bytes_text bytes.now) }
    ensures front { StaysInFront out.old.items out.new.items }
{
    if bytes.is_empty() {
        return out.extend_from_slice(b"-");
    }
    text::push_hex(out, bytes)
}

// The name of a message's type.
fn type_name(kind: MessageType) -> &'static str
    ensures { result.now ≡ type_text kind }
{
    match kind {
        MessageType::Con => "CON",
        MessageType::Non => "NON",
        MessageType::Ack => "ACK",
        MessageType::Rst => "RST",
    }
}

// Appends a code: its class, a dot and its detail in two digits.
fn push_code(out: &mut Vec<u8>, code: Code) -> Result<(), AllocError>
    ensures text { OnOk result (out.new.items ≡ out.old.items ++ code_text code.0) }
    ensures front { StaysInFront out.old.items out.new.items }
{
    let class = code.class();
    let detail = code.detail();
    out.extend_from_slice(&[b'0' + class, b'.', b'0' + detail / 10, b'0' + detail % 10])
}

// Appends what comes before the options of a message, and a blank.
pub fn push_header(out: &mut Vec<u8>, header: &Header<'_>) -> Result<(), AllocError>
    ensures text { OnOk result (out.new.items ≡ out.old.items ++ head_text (head_of header.now)) }
    ensures front { StaysInFront out.old.items out.new.items }
{
    out.extend_from_slice(b"message ")?;
    out.extend_from_slice(type_name(header.kind).as_bytes())?;
    out.push(b' ')?;
    push_code(out, header.code)?;
    out.push(b' ')?;
    text::push_decimal(out, u64::from(header.id))?;
    out.push(b' ')?;
    push_bytes(out, header.token)?;
    out.push(b' ')?;
    Ok(())
}
