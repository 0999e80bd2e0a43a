// The line of an answer.
ghost use Rattle.std.specs.Prelude.{◌≡◌, ◌++◌, length, take, is_ok, if◌then◌else◌, OnOk};
ghost use Rattle.server.specs.Calls.{Reply, Tallied};
ghost use Rattle.calls.specs.Model.{counts_of, served_as};
ghost use Rattle.lines.specs.Lines.{answer_line};
ghost use Rattle.lines.specs.Laws.{LinesTellAnswersApart};

use crate::piece;
use calls::answer::{Counts, Served};
use std::alloc::AllocError;

// Appends the line of a reply. Where memory is wanting, what was there stays, and a part of the line may follow.
fn push_reply(out: &mut Vec<u8>, reply: &[u8]) -> Result<(), AllocError>
    ensures line { OnOk result (out.new.items ≡ out.old.items ++ answer_line (Reply reply.now)) }
    ensures kept { take (length out.old.items) out.new.items ≡ out.old.items }
{
    out.extend_from_slice(b"reply ")?;
    text::push_hex(out, reply)?;
    out.extend_from_slice(b"\n")
}

// Appends the line of a tally. Where memory is wanting, what was there stays, and a part of the line may follow.
fn push_tally(out: &mut Vec<u8>, counts: &Counts) -> Result<(), AllocError>
    ensures line { OnOk result (out.new.items ≡ out.old.items ++ answer_line (Tallied (counts_of counts.now))) }
    ensures kept { take (length out.old.items) out.new.items ≡ out.old.items }
{
    out.extend_from_slice(b"tally ")?;
    text::push_decimal(out, u64::from(counts.done))?;
    out.extend_from_slice(b" ")?;
    text::push_decimal(out, u64::from(counts.repeated))?;
    out.extend_from_slice(b" ")?;
    text::push_decimal(out, u64::from(counts.silenced))?;
    out.extend_from_slice(b" ")?;
    text::push_decimal(out, u64::from(counts.dropped))?;
    out.extend_from_slice(b"\n")
}

// Appends the line of an answer. Where memory is wanting, what was there stays, and a part of the line may follow.
fn push_line(out: &mut Vec<u8>, answer: &Served) -> Result<(), AllocError>
    ensures line { OnOk result (out.new.items ≡ out.old.items ++ answer_line (served_as answer.now)) }
    ensures kept { take (length out.old.items) out.new.items ≡ out.old.items }
{
    match answer {
        Served::Reply(reply) => push_reply(out, reply.as_slice()),
        Served::Silent(why) => piece::push_numbered(out, b"silent ", u64::from(why.number())),
        Served::Refused(why) => piece::push_numbered(out, b"refused ", u64::from(why.number())),
        Served::Tallied(counts) => push_tally(out, counts),
    }
}

// Appends the line of an answer. Where memory is wanting, `out` stays as it was.
pub fn push_answer(out: &mut Vec<u8>, answer: &Served) -> Result<(), AllocError>
    ensures line { out.new.items ≡ (if is_ok result then out.old.items ++ answer_line (served_as answer.now) else out.old.items) }
    ensures apart { LinesTellAnswersApart }
{
    let before = out.len();
    let pushed = push_line(out, answer);
    text::whole_or_nothing(out, before, pushed)
}
