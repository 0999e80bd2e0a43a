// How an option's delta and length are coded: four bits, and up to two further bytes where those are too few.
ghost use Rattle.std.specs.Prelude.{◌≡◌, ◌≤◌, length};
ghost use Rattle.message.specs.Encoding.{nibble, further};
ghost use Rattle.message.specs.Options.{extension_size, extended};

// How many further bytes a nibble asks for.
pub(crate) fn extended_size(nibble: u8) -> usize
    ensures { result ≡ extension_size nibble }
{
    match nibble {
        0..=12 => 0,
        13 => 1,
        _ => 2,
    }
}

// The number that a nibble means, with its further bytes at the front of `more`.
pub(crate) fn extended_value(nibble: u8, more: &[u8]) -> u32
    requires { extension_size nibble ≤ length more.now }
    ensures { result ≡ extended nibble more.now }
{
    match nibble {
        0..=12 => u32::from(nibble),
        13 => u32::from(more[0]) + 13,
        _ => u32::from(u16::from_be_bytes([more[0], more[1]])) + 269,
    }
}

// The nibble that stands for `n`.
pub(crate) fn nibble_of(n: usize) -> u8
    ensures { result ≡ nibble n }
{
    match n {
        0..=12 => n as u8,
        13..=268 => 13,
        _ => 14,
    }
}

// How many further bytes go with that nibble.
pub(crate) fn further_len(n: usize) -> usize
    ensures { result ≡ length (further n) }
{
    extended_size(nibble_of(n))
}
