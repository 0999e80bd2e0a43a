// Numbers written in decimal.
ghost use Rattle.std.specs.Prelude.{◌≡◌, ◌+◌, ◌≤◌, true, ◌++◌, is_ok, if◌then◌else◌, vec_len, vec_capacity, decimal};
ghost use Rattle.text.specs.Decimal.{DecimalReadsBack};

use itoa::Buffer;
use std::alloc::AllocError;

// Appends `n` in decimal, with no leading zero. Where memory is wanting, `out` stays as it was,
// and no memory is wanted where `out` has room for the twenty digits of the largest number.
pub fn push_decimal(out: &mut Vec<u8>, n: u64) -> Result<(), AllocError>
    ensures appends { out.new.items ≡ (if is_ok result then out.old.items ++ decimal n else out.old.items) }
    ensures succeeds { vec_len out.old + 20 ≤ vec_capacity out.old → is_ok result ≡ true }
    ensures reads_back { DecimalReadsBack }
{
    out.reserve(20)?;
    for digit in Buffer::new().format(n).as_bytes() {
        out.push_reserved(*digit);
    }
    Ok(())
}
