// Replies, written into a lent buffer.
#![tactic(auto)]

ghost use Rattle.std.specs.Prelude.{◌≡◌, ◌≤◌, [], length};
ghost use Rattle.calls.specs.Model.{exchange_as};
ghost use Rattle.server.specs.Replies.{reset_for};
ghost use Rattle.replies.specs.Writing.{write_answer, buffer_after};

mod max_age;
pub mod reply;
mod response;

use crate::reply::Reply;
use calls::exchange::Exchange;
use message::header::{EMPTY, MessageType};
use message::writer::{WriteError, Writer};

// Writes a Reset of this Message ID at the front of `out`: how many bytes it has. `out` stays as it was where the Reset
// does not fit.
pub fn write_reset(id: u16, out: &mut [u8]) -> Result<usize, WriteError>
    ensures answer { result ≡ write_answer [] (reset_for id) out.old }
    ensures buffer { out.new ≡ buffer_after (reset_for id) out.old result }
{
    let mut writer = Writer::new(out);
    writer.start(MessageType::Rst, EMPTY, id, &[])?;
    Ok(writer.len())
}

// Writes an answer to an exchange at the front of `out`: how many bytes it has. `out` stays as it was where the token is
// over 8 bytes or the reply does not fit.
pub fn write_reply<A: Reply>(
    exchange: &Exchange<'_>,
    answer: &A,
    out: &mut [u8],
) -> Result<usize, WriteError>
    ensures answer { result ≡ write_answer exchange.now.token.now (A.bytes (exchange_as exchange.now) answer.now) out.old }
    ensures buffer { out.new ≡ buffer_after (A.bytes (exchange_as exchange.now) answer.now) out.old result }
    ensures short { length exchange.now.token.now ≤ 8 → length (A.bytes (exchange_as exchange.now) answer.now) ≤ A.most }
{
    answer.response().write(exchange, out)
}

#[cfg(test)]
mod tests {
    use super::*;
    use register::bytes::Bytes;
    use register::values::{ChangeAnswer, ChangeCode, ReadAnswer, ReadCode};
    use std::test::Fail;

    // A 2.05 to a confirmable request, with Max-Age 50.
    #[test]
    fn acknowledges_with_content(rt: HostRuntime) -> Result<(), Fail> {
        let exchange = Exchange {
            confirmable: true,
            id: 0x1234,
            token: &[0xA1],
        };
        let answer = ReadAnswer {
            code: ReadCode::Content,
            body: Bytes::new(b"ann")?,
            max_age: 50,
        };
        let mut out = [0; 16];
        assert_eq!(rt; write_reply(&exchange, &answer, &mut out), Ok(12));
        assert_eq!(rt;
            &out[0..12],
            [
                0x61, 0x45, 0x12, 0x34, 0xA1, 0xD1, 0x01, 0x32, 0xFF, 0x61, 0x6E, 0x6E,
            ]
            .as_slice()
        );
        Ok(())
    }

    // A 5.03 to a request that is not confirmable; its Max-Age has two bytes.
    #[test]
    fn tells_when_to_come_again(rt: HostRuntime) {
        let exchange = Exchange {
            confirmable: false,
            id: 7,
            token: &[],
        };
        let answer = ChangeAnswer {
            code: ChangeCode::ServiceUnavailable,
            body: Bytes::empty(),
            max_age: 256,
        };
        let mut out = [0; 16];
        assert_eq!(rt; write_reply(&exchange, &answer, &mut out), Ok(8));
        assert_eq!(rt;
            &out[0..8],
            [0x50, 0xA3, 0x00, 0x07, 0xD2, 0x01, 0x01, 0x00].as_slice()
        );
    }

    // A Reset; and a buffer that is too short for it.
    #[test]
    fn resets(rt: HostRuntime) {
        let mut out = [0xEE; 4];
        assert_eq!(rt; write_reset(5, &mut out[0..3]), Err(WriteError::NoRoom));
        assert_eq!(rt; &out, &[0xEE; 4]);
        assert_eq!(rt; write_reset(5, &mut out), Ok(4));
        assert_eq!(rt; &out, &[0x70, 0x00, 0x00, 0x05]);
    }
}
