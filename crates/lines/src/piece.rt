// Pieces of lines.
ghost use Rattle.std.specs.Prelude.{◌≡◌, ◌++◌, length, take, OnOk};
ghost use Rattle.text.specs.Lines.{line_feed};
ghost use Rattle.lines.specs.Lines.{number_text};

use std::alloc::AllocError;

// Appends a word and a number as a line. Where memory is wanting, what was there stays, and a part of the line may follow.
pub fn push_numbered(out: &mut Vec<u8>, word: &[u8], number: u64) -> Result<(), AllocError>
    ensures line { OnOk result (out.new.items ≡ out.old.items ++ (number_text word.now number ++ line_feed)) }
    ensures kept { take (length out.old.items) out.new.items ≡ out.old.items }
{
    out.extend_from_slice(word)?;
    text::push_decimal(out, number)?;
    out.extend_from_slice(b"\n")
}
