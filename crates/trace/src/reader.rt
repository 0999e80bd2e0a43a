// The reader of a block. It copies nothing.
ghost use Rattle.std.specs.Prelude.{◌≡◌, ◌+◌, ◌≤◌, length};
ghost use Rattle.trace.specs.Blocks.{part, number, arrival_in, content_in, entry_in};
ghost use Rattle.trace.specs.Entries.{entry_of};

use crate::block::{Block, Damaged, Kind, StackNumber};
use crate::check::check_sum;
use calls::call::{Arrival, Call};
use message::MAX_DATAGRAM;

// The bytes of a block.
const BLOCK: usize = 512;

// The bytes of a block before its check.
const CHECKED: usize = 510;

// The place in an arrival where the datagram begins.
const DATAGRAM: usize = 15;

// The N bytes from the place `at` on.
fn field<const N: usize>(block: &[u8; BLOCK], at: usize) -> [u8; N]
    requires { at + N ≤ 512 }
    ensures { result ≡ part at N block.now }
{
    *block[at..].first_chunk().unwrap()
}

// The arrival that a block of this kind holds.
fn read_arrival(block: &[u8; BLOCK]) -> Result<Block<'_>, Damaged>
    ensures { entry_of result ≡ arrival_in block.now }
{
    let length = usize::from(u16::from_be_bytes(field(block, 1)));
    if length > MAX_DATAGRAM {
        return Err(Damaged);
    }
    Ok(Block::Call(Call::Arrival(Arrival {
        moment: u64::from_be_bytes(field(block, 7)),
        peer: u32::from_be_bytes(field(block, 3)),
        datagram: &block[DATAGRAM..DATAGRAM + length],
    })))
}

// What a block holds, by its kind; its check is not looked at.
fn read_content(block: &[u8; BLOCK]) -> Result<Block<'_>, Damaged>
    ensures { entry_of result ≡ content_in block.now }
{
    match Kind::try_from(block[0])? {
        Kind::Head => Ok(Block::Head(StackNumber::try_from(block[1])?)),
        Kind::Arrival => read_arrival(block),
        Kind::Tally => Ok(Block::Call(Call::Tally)),
    }
}

// The check that a block ends with.
fn stored_check(block: &[u8; BLOCK]) -> u16
    ensures { result ≡ number (part 510 2 block.now) }
{
    u16::from_be_bytes(field(block, CHECKED))
}

// What a block holds. It is damaged where it has not 512 bytes, where its check is not that of its bytes, and where
// no kind of block has its content.
pub fn read_block(bytes: &[u8]) -> Result<Block<'_>, Damaged>
    ensures { entry_of result ≡ entry_in bytes.now }
{
    let block = bytes.as_array().ok_or(Damaged)?;
    if check_sum(&block[0..CHECKED]) != stored_check(block) {
        return Err(Damaged);
    }
    read_content(block)
}
