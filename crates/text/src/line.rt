// Lines of text.
ghost use Rattle.std.specs.Prelude.{◌≡◌, ◌++◌, take, is_ok, if◌then◌else◌, IfSome, OnOk, OnErr};
ghost use Rattle.text.specs.Lines.{line_feed};

use std::alloc::AllocError;
use std::fmt::Display;

// The room that a line's text has at first, enough for most lines.
const LINE_ROOM: usize = 256;

// Appends what a value shows itself as, and a line feed. Where memory is wanting, `out` stays as it was.
pub fn push_line<L: Display + Drop>(out: &mut Vec<u8>, shown: L) -> Result<(), AllocError>
    ensures text { OnOk result (IfSome (L.output shown) (λ text. out.new.items ≡ out.old.items ++ (text ++ line_feed))) }
    ensures kept { OnErr result (out.new.items ≡ out.old.items) }
{
    let mut line = String::with_capacity(*out.allocator(), LINE_ROOM)?;
    writeln!(line, "{shown}")?;
    out.extend_from_slice(line.as_bytes())
}

// Where memory was wanting for a line, takes back what came after the first `before` bytes. The result is passed on.
pub fn whole_or_nothing<T>(
    out: &mut Vec<u8>,
    before: usize,
    pushed: Result<T, AllocError>,
) -> Result<T, AllocError>
    ensures same { result ≡ pushed }
    ensures text { out.new.items ≡ (if is_ok pushed then out.old.items else take before out.old.items) }
{
    if pushed.is_err() {
        out.truncate(before);
    }
    pushed
}
