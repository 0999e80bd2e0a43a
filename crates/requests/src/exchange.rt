// Whom a reply to a datagram goes to.
ghost use Rattle.std.specs.Prelude.{◌≡◌, slice_index};
ghost use Rattle.message.specs.Reading.{head_of};
ghost use Rattle.calls.specs.Model.{exchange_as};
ghost use Rattle.server.specs.Replies.{exchange_by_head, exchange_by_bytes};
ghost use Rattle.calls.specs.Judging.{exchange};

use calls::exchange::Exchange;
use message::header::{Header, MessageType};
use message::reader::Reader;

// The byte at a place, or 0 behind the end.
fn byte_at(datagram: &[u8], place: usize) -> u8
    ensures { result ≡ slice_index datagram.now place }
{
    datagram.get(place).copied().unwrap_or(0)
}

// What a reply repeats of a message with this header.
// No `From`, which would be no plainer: both types are of other crates, and a crate writes it for a type of its own.
fn exchange_with(header: Header<'_>) -> Exchange<'_>
    ensures { exchange_as result ≡ exchange_by_head (head_of header.entry) }
{
    Exchange {
        confirmable: header.kind == MessageType::Con,
        id: header.id,
        token: header.token,
    }
}

// What a reply repeats of a datagram that has no header that can be read.
fn exchange_in(datagram: &[u8]) -> Exchange<'_>
    ensures { exchange_as result ≡ exchange_by_bytes datagram.now }
{
    Exchange {
        confirmable: byte_at(datagram, 0) / 16 % 4 == 0,
        id: u16::from_be_bytes([byte_at(datagram, 2), byte_at(datagram, 3)]),
        token: &[],
    }
}

// Whom a reply to the datagram goes to, whatever else is wrong with it.
pub fn exchange_of(datagram: &[u8]) -> Exchange<'_>
    ensures { exchange_as result ≡ exchange datagram.now }
{
    match Reader::open(datagram) {
        Ok((header, _)) => exchange_with(header),
        Err(_) => exchange_in(datagram),
    }
}
