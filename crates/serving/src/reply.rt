// Replies, in the part of the host's buffer that is long enough for each of them.
ghost use Rattle.std.specs.Prelude.{◌≡◌, ◌≤◌, length};
ghost use Rattle.message.specs.Writing.{laid};
ghost use Rattle.register.specs.Model.{bytes_of};
ghost use Rattle.register.specs.Values.{code_byte};
ghost use Rattle.calls.specs.Numbers.{silence_number};
ghost use Rattle.server.specs.Calls.{Reply as Replied};
ghost use Rattle.server.specs.Replies.{failing_to};
ghost use Rattle.server.specs.Requests.{not_request};
ghost use Rattle.calls.specs.Judging.{exchange as exchangeFor, answer_to};
ghost use Rattle.calls.specs.Model.{exchange_as, Gives, buffer_with};

use crate::record::ReplyBytes;
use calls::answer::{Answer, Refusal, Silence};
use calls::exchange::Exchange;
use calls::report::Report;
use message::fault::Rejection;
use register::values::ChangeCode;
use replies::{write_reply, write_reset};
use requests::exchange::exchange_of;

// The fewest bytes that a reply buffer may have.
pub(crate) const MIN_REPLY: usize = 320;

// The front of the host's buffer, in which every reply fits.
pub(crate) type ReplyBuffer = [u8; MIN_REPLY];

// Gives a reply again.
pub(crate) fn copy(reply: &ReplyBytes, buffer: &mut ReplyBuffer) -> usize
    ensures size { result ≡ length (bytes_of reply.now) }
    ensures buffer { buffer.new ≡ laid buffer.old 0 (bytes_of reply.now) }
{
    let bytes = reply.as_slice();
    let n = bytes.len();
    buffer[0..n].copy_from_slice(bytes);
    n
}

// What is no request gets a Reset if it is confirmable, and this silence otherwise.
fn reset(exchange: &Exchange<'_>, silence: Silence, buffer: &mut ReplyBuffer) -> Answer
    ensures answer { Gives (not_request (exchange_as exchange.now) (silence_number silence)) result }
    ensures buffer { buffer.new ≡ buffer_with (not_request (exchange_as exchange.now) (silence_number silence)) buffer.old }
{
    if !exchange.confirmable {
        return Answer::Silent(silence);
    }
    Answer::Reply(write_reset(exchange.id, buffer).unwrap())
}

// An error by its code alone.
fn fail(exchange: &Exchange<'_>, code: ChangeCode, buffer: &mut ReplyBuffer) -> Answer
    requires { length exchange.now.token.now ≤ 8 }
    ensures answer { Gives (Replied (failing_to (exchange_as exchange.now) (code_byte code))) result }
    ensures buffer { buffer.new ≡ buffer_with (Replied (failing_to (exchange_as exchange.now) (code_byte code))) buffer.old }
{
    Answer::Reply(write_reply(exchange, &code, buffer).unwrap())
}

// The answer to a datagram that is not carried to the register.
pub(crate) fn settle_report(datagram: &[u8], report: &Report, buffer: &mut ReplyBuffer) -> Answer
    ensures answer { Gives (answer_to (exchangeFor datagram.now) report.now) result }
    ensures buffer { buffer.new ≡ buffer_with (answer_to (exchangeFor datagram.now) report.now) buffer.old }
{
    let exchange = exchange_of(datagram);
    match report {
        Report::Unreadable(Rejection::TooLong) => Answer::Refused(Refusal::Datagram),
        Report::Unreadable(Rejection::NotCoap) => Answer::Silent(Silence::NotCoap),
        Report::Unreadable(Rejection::Fault(_)) => reset(&exchange, Silence::Fault, buffer),
        Report::Empty => reset(&exchange, Silence::Empty, buffer),
        Report::NotRequest => reset(&exchange, Silence::NotRequest, buffer),
        Report::UnknownOption(_) if !exchange.confirmable => Answer::Silent(Silence::UnknownOption),
        Report::UnknownOption(_) => fail(&exchange, ChangeCode::BadOption, buffer),
        Report::Proxy => fail(&exchange, ChangeCode::ProxyingNotSupported, buffer),
        Report::Method => fail(&exchange, ChangeCode::MethodNotAllowed, buffer),
        Report::Path => fail(&exchange, ChangeCode::NotFound, buffer),
        Report::Payload => fail(&exchange, ChangeCode::RequestEntityTooLarge, buffer),
    }
}
