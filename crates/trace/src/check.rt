// The check of a block.
ghost use Rattle.std.specs.Prelude.{◌≡◌, ◌≤◌, length};
ghost use Rattle.trace.specs.Blocks.{check_of};

// The check of these bytes. The sum fits: 255 * (1 + 2 + .. + 510) is below 2^32.
pub(crate) fn check_sum(bytes: &[u8]) -> u16
    requires { length bytes.now ≤ 510 }
    ensures { result ≡ check_of bytes.now }
{
    let sum: u32 = bytes
        .iter()
        .zip(1..)
        .map(|(&byte, weight)| u32::from(byte) * weight)
        .sum();
    (sum % 65_521) as u16
}
