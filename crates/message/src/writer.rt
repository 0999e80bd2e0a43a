// The writer: a header, options one by one and a payload, into a lent buffer.
ghost use Rattle.std.specs.Prelude.{◌≡◌, ◌+◌, ◌-◌, ◌≤◌, min, length};
ghost use Rattle.message.specs.Encoding.{further};
ghost use Rattle.message.specs.Writing.{write_number, headed, beginning, following, added, fresh, state_of, start_answer, option_answer, payload_answer, settled, started, option_added, payload_added};

use crate::header::{Code, EMPTY, MessageType};
use crate::nibble::{further_len, nibble_of};
use crate::{MAX_DATAGRAM, PAYLOAD_MARKER};

// Why the writer refuses; it then leaves everything as it was.
#[derive(Clone, Copy, PartialEq, Eq, Debug)]
pub enum WriteError {
    // An option number below the one before, a second header or payload, or anything out of its turn.
    OutOfOrder = 21,
    // More than the buffer or a datagram has room for.
    NoRoom = 22,
    // A token over 8 bytes.
    TokenTooLong = 23,
    // A token, an option or a payload in an Empty message.
    EmptyMessage = 24,
}

impl WriteError {
    // The number of the refusal, 21 to 24.
    pub fn number(self) -> u8
        ensures { result ≡ write_number self }
    {
        self as u8
    }
}

// How far a message is written: nothing, the header of an Empty message, a header and options, or a payload too.
#[derive(Clone, Copy, PartialEq, Eq, Debug)]
enum Stage {
    Unstarted,
    Empty,
    Options,
    Complete,
}

// A buffer, how many bytes of it are written, the number of the last option, and the stage. The buffer is the host's, and
// the server has no heap: a length stands beside it. There is no `impl Model`: with one, a caller knew nothing of what the
// buffer holds once the writer is dropped.
#[derive(Drop)]
pub struct Writer<'b> {
    out: &'b mut [u8],
    len: usize,
    number: u16,
    stage: Stage,
}

impl Stage {
    // The stage after a header with this code.
    fn after_header(code: Code) -> Stage
        ensures { result ≡ headed code.0 }
    {
        if code == EMPTY {
            Stage::Empty
        } else {
            Stage::Options
        }
    }

    // Whether a header may come.
    fn beginning(self) -> Result<(), WriteError>
        ensures { result ≡ beginning self }
    {
        match self {
            Stage::Unstarted => Ok(()),
            Stage::Empty | Stage::Options | Stage::Complete => Err(WriteError::OutOfOrder),
        }
    }

    // Whether an option or a payload may follow.
    fn following(self) -> Result<(), WriteError>
        ensures { result ≡ following self }
    {
        match self {
            Stage::Options => Ok(()),
            Stage::Empty => Err(WriteError::EmptyMessage),
            Stage::Unstarted | Stage::Complete => Err(WriteError::OutOfOrder),
        }
    }
}

impl<'b> Writer<'b> {
    // A writer that has written nothing yet.
    pub fn new(out: &'b mut [u8]) -> Writer<'b>
        ensures state { state_of result ≡ fresh out.entry.ghost_name out.old }
    {
        Writer {
            out,
            len: 0,
            number: 0,
            stage: Stage::Unstarted,
        }
    }

    // How many bytes are written.
    pub fn len(&self) -> usize
        ensures { result ≡ self.now.len }
    {
        let Writer { len, .. } = self;
        *len
    }

    // The header and the token at the front of the buffer.
    pub fn start(
        &mut self,
        kind: MessageType,
        code: Code,
        id: u16,
        token: &[u8],
    ) -> Result<(), WriteError>
        ensures answer { result ≡ start_answer (state_of self.old) (record { type = kind; code = code.0; id = id; token = token.now }) }
        ensures state { state_of self.new ≡ settled result (started (state_of self.old) (record { type = kind; code = code.0; id = id; token = token.now })) (state_of self.old) }
    {
        let size = token.len();
        if size > 8 {
            return Err(WriteError::TokenTooLong);
        }
        if code == EMPTY && size > 0 {
            return Err(WriteError::EmptyMessage);
        }
        self.stage.beginning()?;
        if self.out.len() < 4 + size {
            return Err(WriteError::NoRoom);
        }
        let [high, low] = id.to_be_bytes();
        let first = 64 + kind.bits() * 16 + size as u8;
        self.len = 0;
        self.lay(&[first, code.0, high, low]);
        self.lay(token);
        self.number = 0;
        self.stage = Stage::after_header(code);
        Ok(())
    }

    // An option after those that are written.
    pub fn option(&mut self, number: u16, value: &[u8]) -> Result<(), WriteError>
        ensures answer { result ≡ option_answer (state_of self.old) (record { number = number; value = value.now }) }
        ensures state { state_of self.new ≡ settled result (option_added (state_of self.old) (record { number = number; value = value.now })) (state_of self.old) }
    {
        self.stage.following()?;
        if number < self.number {
            return Err(WriteError::OutOfOrder);
        }
        let room = self.room();
        let delta = (number - self.number) as usize;
        let size = value.len();
        let head = 1 + further_len(delta) + further_len(size);
        if room < size || room - size < head {
            return Err(WriteError::NoRoom);
        }
        self.lay(&[nibble_of(delta) * 16 + nibble_of(size)]);
        self.lay_further(delta);
        self.lay_further(size);
        self.lay(value);
        self.number = number;
        Ok(())
    }

    // The payload. An empty one writes nothing and closes nothing.
    pub fn payload(&mut self, bytes: &[u8]) -> Result<(), WriteError>
        ensures answer { result ≡ payload_answer (state_of self.old) bytes.now }
        ensures state { state_of self.new ≡ settled result (payload_added (state_of self.old) bytes.now) (state_of self.old) }
    {
        if bytes.is_empty() {
            return Ok(());
        }
        self.stage.following()?;
        if self.room() <= bytes.len() {
            return Err(WriteError::NoRoom);
        }
        self.lay(&[PAYLOAD_MARKER]);
        self.lay(bytes);
        self.stage = Stage::Complete;
        Ok(())
    }

    // How many bytes more the buffer and a datagram have room for.
    fn room(&self) -> usize
        ensures { result ≡ min (length self.now.out.now) 480 - self.now.len }
    {
        self.out.len().min(MAX_DATAGRAM).saturating_sub(self.len)
    }

    // These bytes after what is written; there is room for them.
    fn lay(&mut self, bytes: &[u8])
        requires { self.old.len + length bytes.now ≤ length self.old.out.now }
        ensures state { state_of self.new ≡ added (state_of self.old) bytes.now }
        ensures size { length self.new.out.now ≡ length self.old.out.now }
    {
        let at = self.len;
        let end = at + bytes.len();
        self.out[at..end].copy_from_slice(bytes);
        self.len = end;
    }

    // The further bytes that go with the nibble of `n`.
    fn lay_further(&mut self, n: usize)
        requires n_bound { n ≤ 65804 }
        requires n_in_bounds { self.old.len + length (further n) ≤ length self.old.out.now }
        ensures state { state_of self.new ≡ added (state_of self.old) (further n) }
        ensures size { length self.new.out.now ≡ length self.old.out.now }
    {
        match n {
            0..=12 => {}
            13..=268 => self.lay(&[(n - 13) as u8]),
            _ => self.lay(&((n - 269) as u16).to_be_bytes()),
        }
    }
}
