// The line that answers a line of input.
ghost use Rattle.std.specs.Prelude.{◌≡◌, ◌++◌, IfOk, OnOk, OnErr};
ghost use Rattle.inspect.specs.Line.{line_kind, line_text};

use crate::datagram;
use crate::datagram::LineKind;
use std::alloc::{AllocError, Global};

// Appends the answer to a line of input, and says what the line is. Where memory is wanting, `out` stays as it was.
pub fn push_answer(heap: Global, line: &[u8], out: &mut Vec<u8>) -> Result<LineKind, AllocError>
    ensures kind { IfOk result (λ kind. kind ≡ line_kind line.now) }
    ensures text { OnOk result (out.new.items ≡ out.old.items ++ line_text line.now) }
    ensures kept { OnErr result (out.new.items ≡ out.old.items) }
{
    match text::read_hex(heap, line)? {
        Some(bytes) => datagram::push_datagram(out, bytes.as_slice()),
        None => {
            out.extend_from_slice(b"not hex\n")?;
            Ok(LineKind::Other)
        }
    }
}
