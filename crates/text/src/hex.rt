// Bytes written in hexadecimal: two digits to a byte, the high one first.
ghost use Rattle.std.specs.Prelude.{◌≡◌, ◌+◌, ◌*◌, ◌<◌, ◌≤◌, ◌/◌, ◌%◌, true, [], ◌∷◌, ◌++◌, length, take, is_ok, if◌then◌else◌, vec_items, vec_len, vec_capacity, MatchResult, Some, IsAscii};
ghost use Rattle.std.specs.Option.{option_map};
ghost use Rattle.text.specs.Hex.{blank, digit_of, hex_bytes, hex_digit, hex_text, unblanked, HexRoundTrip};

use std::alloc::{AllocError, Global};
use std::{fmt, str};

// Whether a character is a space, a tab or a carriage return.
fn is_blank(c: u8) -> bool
    ensures { result ≡ blank c }
{
    matches!(c, b' ' | b'\t' | b'\r')
}

// The value of a hexadecimal digit of either case, and nothing for any other character.
fn digit_value(c: u8) -> Option<u8>
    ensures { result ≡ digit_of c }
{
    char::from(c).to_digit(16).map(|digit| digit as u8)
}

// The capital hexadecimal digit of a value below sixteen. (`char::from_digit` gives small letters.)
fn digit_text(value: u8) -> u8
    requires { value < 16 }
    ensures { result ≡ hex_digit value }
{
    if value < 10 {
        b'0' + value
    } else {
        b'A' + (value - 10)
    }
}

// The two digits of a byte, the high one first.
fn digits(byte: u8) -> [u8; 2]
    ensures { result ≡ hex_digit (byte / 16) ∷ hex_digit (byte % 16) ∷ [] }
{
    [digit_text(byte / 16), digit_text(byte % 16)]
}

// The digits of at most 32 bytes, at the front of a room for that many.
fn part_digits(bytes: &[u8]) -> [u8; 64]
    requires { length bytes.now ≤ 32 }
    ensures text { take (2 * length bytes.now) result ≡ hex_text bytes.now }
    ensures ascii { IsAscii (hex_text bytes.now) }
{
    let mut text = [0; 64];
    for (i, byte) in bytes.iter().enumerate() {
        let [high, low] = digits(*byte);
        text[2 * i] = high;
        text[2 * i + 1] = low;
    }
    text
}

// Bytes as text: two capital digits to a byte. They are written by parts of 32 bytes.
#[derive(Clone, Copy, Debug)]
pub struct Hex<'a>(pub &'a [u8]);

impl fmt::Display for Hex<'_> {
    ghost output = { λ bytes. Some (hex_text bytes.0.now) };

    fn fmt<W: fmt::Write>(&self, f: &mut fmt::Formatter<W>) -> fmt::Result {
        for part in self.0.chunks(32) {
            let room = part_digits(part);
            let Ok(text) = str::from_utf8(&room[..2 * part.len()]) else {
                unreachable!();
            };
            f.write_str(text)?;
        }
        Ok(())
    }
}

// The bytes that a line of text writes in hexadecimal. Blanks are passed over wherever they stand.
// The answer is `None` where the line has any other character, or an odd number of digits.
// Memory is wanted only for a line that has two characters or more besides its blanks.
pub fn read_hex(heap: Global, line: &[u8]) -> Result<Option<Vec<u8>>, AllocError>
    ensures { MatchResult result (λ o. option_map vec_items o ≡ hex_bytes line.now) (λ _. 2 ≤ length (unblanked line.now)) }
{
    let mut bytes = Vec::new(heap);
    let mut high = None;
    for c in line {
        if is_blank(*c) {
            continue;
        }
        let Some(digit) = digit_value(*c) else {
            return Ok(None);
        };
        high = match high {
            Some(first) => {
                bytes.push(16 * first + digit)?;
                None
            }
            None => Some(digit),
        };
    }
    match high {
        Some(_) => Ok(None),
        None => Ok(Some(bytes)),
    }
}

// Appends each byte as two capital hexadecimal digits. Where memory is wanting, `out` stays as it was,
// and no memory is wanted where `out` has the room already.
pub fn push_hex(out: &mut Vec<u8>, bytes: &[u8]) -> Result<(), AllocError>
    ensures appends { out.new.items ≡ (if is_ok result then out.old.items ++ hex_text bytes.now else out.old.items) }
    ensures succeeds { vec_len out.old + 2 * length bytes.now ≤ vec_capacity out.old → is_ok result ≡ true }
    ensures reads_back { HexRoundTrip }
{
    out.reserve(2 * bytes.len())?;
    for byte in bytes {
        let [high, low] = digits(*byte);
        out.push_reserved(high);
        out.push_reserved(low);
    }
    Ok(())
}
