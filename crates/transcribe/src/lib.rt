// Reading and writing in one: the fields of a datagram, written again.
#![tactic(auto)]

ghost use Rattle.std.specs.Prelude.{◌≡◌, ◌≤◌, length, Ok};
ghost use Rattle.transcribe.specs.declared.TranscribeError.TheVariants.{Rejected, Unwritten};
ghost use Rattle.message.specs.declared.fault.Rejection.TheVariants.{Fault};
ghost use Rattle.message.specs.Message.{parse};
ghost use Rattle.message.specs.Reading.{options_of};
ghost use Rattle.message.specs.Writing.{IsFresh, laid, state_of};
ghost use Rattle.transcribe.specs.Transcribing.{IsMessage, Copyable, Copied, validity, transcribe_answer, transcribed};
ghost use Rattle.transcribe.specs.Theorems.{RoundTrip, OptionLaws};

use message::fault::{MessageFault, Rejection};
use message::reader::Reader;
use message::writer::{WriteError, Writer};

// Why a datagram is not written again: it is not a message, or the buffer is too short for it.
#[derive(Clone, Copy, PartialEq, Eq, Debug)]
pub enum TranscribeError {
    Rejected(Rejection),
    Unwritten(WriteError),
}

impl From<Rejection> for TranscribeError {
    ghost from_gives = { λ why r. r ≡ Rejected why };

    fn from(why: Rejection) -> TranscribeError {
        TranscribeError::Rejected(why)
    }
}

impl From<MessageFault> for TranscribeError {
    ghost from_gives = { λ fault r. r ≡ Rejected (Fault fault) };

    fn from(fault: MessageFault) -> TranscribeError {
        TranscribeError::Rejected(Rejection::Fault(fault))
    }
}

impl From<WriteError> for TranscribeError {
    ghost from_gives = { λ why r. r ≡ Unwritten why };

    fn from(why: WriteError) -> TranscribeError {
        TranscribeError::Unwritten(why)
    }
}

// Whether the datagram is a message.
fn validate(datagram: &[u8]) -> Result<(), Rejection>
    ensures { result ≡ validity (parse datagram.now) }
{
    let (_header, reader) = Reader::open(datagram)?;
    let _payload = reader.payload()?;
    Ok(())
}

// Writes the options that the reader has still to give; the writer is known to accept them. (A `Result`, which is always
// Ok, so that the calls of reader and writer follow one another by `?`. So in `copy_fields`.)
fn copy_options(reader: &mut Reader<'_>, writer: &mut Writer<'_>) -> Result<(), TranscribeError>
    requires { Copyable (options_of reader.old) (state_of writer.old) }
    ensures answer { result ≡ Ok tt }
    ensures datagram { reader.new.datagram ≡ reader.old.datagram }
    ensures copied { Copied (options_of reader.old) (state_of writer.old) (options_of reader.new) (state_of writer.new) }
{
    while let Some(option) = reader.next()? {
        let field = option.field();
        writer.option(field.number, field.value)?;
    }
    Ok(())
}

// Writes all the fields of a datagram that is a message; the writer is fresh and has room.
fn copy_fields(datagram: &[u8], writer: &mut Writer<'_>) -> Result<(), TranscribeError>
    requires is_message { IsMessage datagram.now }
    requires writer_is_fresh { IsFresh (state_of writer.old) }
    requires writer_has_room { length datagram.now ≤ length (state_of writer.old).buffer }
    ensures answer { result ≡ Ok tt }
    ensures lender { (state_of writer.new).lender ≡ (state_of writer.old).lender }
    ensures buffer { (state_of writer.new).buffer ≡ laid (state_of writer.old).buffer 0 datagram.now }
    ensures len { (state_of writer.new).len ≡ length datagram.now }
{
    let (header, mut reader) = Reader::open(datagram)?;
    writer.start(header.kind, header.code, header.id, header.token)?;
    copy_options(&mut reader, writer)?;
    writer.payload(reader.payload()?)?;
    Ok(())
}

// Reads the datagram and gives its fields to a writer over `out`: how many bytes are written at its front. They are
// the bytes of the datagram; `out` stays as it was where the datagram is not a message or does not fit.
#[tactic(auto, using(crate::proofs::Laws::round_trip, crate::proofs::Laws::option_laws))]
pub fn transcribe(datagram: &[u8], out: &mut [u8]) -> Result<usize, TranscribeError>
    ensures answer { result ≡ transcribe_answer datagram.now out.old }
    ensures buffer { out.new ≡ transcribed datagram.now out.old }
    ensures inverse { RoundTrip }
    ensures options { OptionLaws }
{
    validate(datagram)?;
    if out.len() < datagram.len() {
        return Err(TranscribeError::Unwritten(WriteError::NoRoom));
    }
    let mut writer = Writer::new(out);
    copy_fields(datagram, &mut writer)?;
    Ok(writer.len())
}
