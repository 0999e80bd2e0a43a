// An input that comes in pieces.
ghost use Rattle.std.specs.Prelude.{◌≡◌, ◌++◌, OnOk};
ghost use Rattle.inspect.specs.Line.{line_text};
ghost use Rattle.inspect.specs.Counts.{counted, totals};
ghost use Rattle.inspect.specs.Stream.{answers, closing, fed, fresh, line_ended, state_of};
ghost use Rattle.inspect.specs.Laws.{FedInParts, SplitAtLineFeeds, WholeReport};

use crate::datagram::LineKind;
use crate::line;
use std::alloc::{AllocError, Global};

// The byte that ends a line.
const LINE_FEED: u8 = b'\n';

// How many lines of each kind there were. A count stays at the largest number once it is there.
#[derive(Clone, Copy, PartialEq, Eq, Debug, Default)]
struct Tally {
    messages: u64,
    faults: u64,
    others: u64,
}

impl Tally {
    // Counts a line.
    fn count(&mut self, kind: LineKind)
        ensures { self.new ≡ counted kind self.old }
    {
        match kind {
            LineKind::Message => self.messages = self.messages.saturating_add(1),
            LineKind::Fault => self.faults = self.faults.saturating_add(1),
            LineKind::Other => self.others = self.others.saturating_add(1),
        }
    }

    // Appends the counts, which are the last line of the output.
    fn push_totals(&self, out: &mut Vec<u8>) -> Result<(), AllocError>
        ensures { OnOk result (out.new.items ≡ out.old.items ++ totals self.now) }
    {
        out.extend_from_slice(b"messages ")?;
        text::push_decimal(out, self.messages)?;
        out.extend_from_slice(b" faults ")?;
        text::push_decimal(out, self.faults)?;
        out.extend_from_slice(b" others ")?;
        text::push_decimal(out, self.others)?;
        out.extend_from_slice(b"\n")
    }
}

// What is kept between pieces: the bytes of the line that has not ended, and the counts.
#[derive(Drop)]
pub struct Stream {
    line: Vec<u8>,
    tally: Tally,
}

impl Stream {
    // Before the first piece no line has begun, and nothing is counted.
    pub fn new(heap: Global) -> Stream
        ensures { state_of result ≡ fresh }
    {
        Stream {
            line: Vec::new(heap),
            tally: Tally::default(),
        }
    }

    // Ends the line: appends the answer to it, counts it, and keeps no byte of it.
    fn end_line(&mut self, heap: Global, out: &mut Vec<u8>) -> Result<(), AllocError>
        ensures state { OnOk result (state_of self.new ≡ line_ended (state_of self.old)) }
        ensures text { OnOk result (out.new.items ≡ out.old.items ++ line_text self.old.line.items) }
    {
        let kind = line::push_answer(heap, self.line.as_slice(), out)?;
        self.tally.count(kind);
        self.line.clear();
        Ok(())
    }

    // Takes the next piece of the input and appends the answers to the lines that end in it.
    pub fn feed(&mut self, heap: Global, piece: &[u8], out: &mut Vec<u8>) -> Result<(), AllocError>
        ensures state { OnOk result (state_of self.new ≡ fed (state_of self.old) piece.now) }
        ensures text { OnOk result (out.new.items ≡ out.old.items ++ answers (state_of self.old) piece.now) }
        ensures parts { FedInParts }
        ensures lines { SplitAtLineFeeds }
    {
        for byte in piece {
            if *byte == LINE_FEED {
                self.end_line(heap, out)?;
            } else {
                self.line.push(*byte)?;
            }
        }
        Ok(())
    }

    // Appends what comes after the last piece: the answer to a line that no line feed ended, and the counts.
    pub fn finish(mut self, heap: Global, out: &mut Vec<u8>) -> Result<(), AllocError>
        ensures text { OnOk result (out.new.items ≡ out.old.items ++ closing (state_of self)) }
        ensures whole { WholeReport }
    {
        if !self.line.is_empty() {
            self.end_line(heap, out)?;
        }
        self.tally.push_totals(out)
    }
}
