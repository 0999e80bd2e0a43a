// Lines that answer no call.
ghost use Rattle.std.specs.Prelude.{◌≡◌, ◌++◌, is_ok, if◌then◌else◌, Some};
ghost use Rattle.lines.specs.Lines.{notice_line, notice_text};

use crate::piece;
use std::alloc::AllocError;
use std::fmt;

// What is said besides the answers: which stack comes, that an input is damaged, has ended or has no head. The number of a
// stack is any `u8`: an enum of two would ask more of callers.
#[derive(Clone, Copy, PartialEq, Eq, Debug)]
pub enum Notice {
    Stack(u8),
    Damaged,
    End,
    NoHead,
}

impl fmt::Display for Notice {
    ghost output = { λ notice. Some (notice_text notice) };

    fn fmt<W: fmt::Write>(&self, f: &mut fmt::Formatter<W>) -> fmt::Result {
        match self {
            Notice::Stack(number) => write!(f, "pile {number}"),
            Notice::Damaged => f.write_str("damaged"),
            Notice::End => f.write_str("end"),
            Notice::NoHead => f.write_str("no head"),
        }
    }
}

// Appends the line of a notice. Where memory is wanting, `out` stays as it was.
pub fn push_notice(out: &mut Vec<u8>, notice: Notice) -> Result<(), AllocError>
    ensures { out.new.items ≡ (if is_ok result then out.old.items ++ notice_line notice else out.old.items) }
{
    match notice {
        Notice::Stack(number) => {
            let before = out.len();
            let pushed = piece::push_numbered(out, b"pile ", u64::from(number));
            text::whole_or_nothing(out, before, pushed)
        }
        Notice::Damaged => out.extend_from_slice(b"damaged\n"),
        Notice::End => out.extend_from_slice(b"end\n"),
        Notice::NoHead => out.extend_from_slice(b"no head\n"),
    }
}
