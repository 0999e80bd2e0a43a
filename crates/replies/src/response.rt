// A reply that repeats what it answers, written into a lent buffer.
ghost use Rattle.std.specs.Prelude.{◌<◌, ◌≤◌, length};

use crate::max_age::{option_len, write_option};
use calls::exchange::Exchange;
use message::header::{Code, MessageType};
use message::writer::{WriteError, Writer};

// The most bytes that a token may have.
const MAX_TOKEN: usize = 8;

// The code of a reply, the Max-Age that it tells, and its body.
#[derive(Clone, Copy, PartialEq, Eq, Debug)]
pub struct Response<'b> {
    pub(crate) code: Code,
    pub(crate) max_age: Option<u32>,
    pub(crate) body: &'b [u8],
    ghost not_empty: { 0 < code.0 },
    ghost short_body: { length body.now ≤ 256 },
}

impl Response<'_> {
    ghost use Rattle.std.specs.Prelude.{◌≡◌, Ok};
    ghost use Rattle.message.specs.Encoding.{encode};
    ghost use Rattle.message.specs.Writing.{IsFresh, laid, state_of};
    ghost use Rattle.calls.specs.Model.{exchange_as};
    ghost use Rattle.replies.specs.Response.{message_to, type_of_reply};
    ghost use Rattle.replies.specs.Writing.{write_answer, buffer_after};

    // The type of the reply to a request that is confirmable or not.
    fn kind(exchange: &Exchange<'_>) -> MessageType
        ensures { result ≡ type_of_reply (exchange_as exchange.now) }
    {
        if exchange.confirmable {
            MessageType::Ack
        } else {
            MessageType::Non
        }
    }

    // How many bytes the reply to an exchange has.
    fn len(&self, exchange: &Exchange<'_>) -> usize
        ensures { result ≡ length (encode (message_to (exchange_as exchange.now) self.now)) }
    {
        let payload_len = if self.body.is_empty() {
            0
        } else {
            1 + self.body.len()
        };
        4 + exchange.token.len() + option_len(self.max_age) + payload_len
    }

    // Writes the whole reply; the token is short enough, and the writer is fresh and has room. (A `Result`, which is always
    // Ok, so that the calls follow one another by `?`.)
    fn write_fields(
        &self,
        exchange: &Exchange<'_>,
        writer: &mut Writer<'_>,
    ) -> Result<(), WriteError>
        requires short_token { length exchange.now.token.now ≤ 8 }
        requires fresh_writer { IsFresh (state_of writer.old) }
        requires has_room { length (encode (message_to (exchange_as exchange.now) self.now)) ≤ length (state_of writer.old).buffer }
        ensures answer { result ≡ Ok tt }
        ensures lender { (state_of writer.new).lender ≡ (state_of writer.old).lender }
        ensures buffer { (state_of writer.new).buffer ≡ laid (state_of writer.old).buffer 0 (encode (message_to (exchange_as exchange.now) self.now)) }
        ensures len { (state_of writer.new).len ≡ length (encode (message_to (exchange_as exchange.now) self.now)) }
    {
        writer.start(Self::kind(exchange), self.code, exchange.id, exchange.token)?;
        write_option(writer, self.max_age)?;
        writer.payload(self.body)
    }

    // Writes the reply at the front of `out`: how many bytes it has. `out` stays as it was where the token is over
    // 8 bytes or the reply does not fit.
    pub(crate) fn write(&self, exchange: &Exchange<'_>, out: &mut [u8]) -> Result<usize, WriteError>
        ensures answer { result ≡ write_answer exchange.now.token.now (encode (message_to (exchange_as exchange.now) self.now)) out.old }
        ensures buffer { out.new ≡ buffer_after (encode (message_to (exchange_as exchange.now) self.now)) out.old result }
    {
        if exchange.token.len() > MAX_TOKEN {
            return Err(WriteError::TokenTooLong);
        }
        if out.len() < self.len(exchange) {
            return Err(WriteError::NoRoom);
        }
        let mut writer = Writer::new(out);
        self.write_fields(exchange, &mut writer)?;
        Ok(writer.len())
    }
}
