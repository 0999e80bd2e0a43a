// Numbers written in decimal.
ghost use Rattle.std.specs.Prelude.{◌≡◌, ◌≤◌, decimal};
ghost use Rattle.register.specs.Model.{bytes_of};

use itoa::Buffer;
use register::bytes::Bytes;

// The digits of `n`, with no leading zero: ten at most.
pub(crate) fn digits<const N: usize>(n: u32) -> Bytes<N>
    requires { 10 ≤ N }
    ensures { bytes_of result ≡ decimal n }
{
    Bytes::new(Buffer::new().format(n).as_bytes()).unwrap()
}
