// Bytes held inline, at most a given number of them.
ghost use Rattle.std.specs.Prelude.{◌≡◌, ◌<◌, ◌≤◌, [], length, Ok, Err, Decides};
ghost use Rattle.std.specs.Str.{bytes_eq};
ghost use Rattle.std.specs.Cmp.{partial_equiv_from_equiv};
ghost use Rattle.std.specs.Cmp.Lexicographic.{nat_list_eq_equiv};
ghost use Rattle.register.specs.Padded.{pad};

use std::marker::Model;

// A value that would have more or fewer bytes or segments than it may, or lie past the last moment. One number is reported
// for all of these, so it has no variants.
#[derive(Clone, Copy, PartialEq, Eq, Debug)]
pub struct ValueError;

impl ValueError {
    // The number of this refusal.
    pub fn number(self) -> u8
        ensures { result ≡ 25 }
    {
        25
    }
}

// At most N bytes: the first `len` of `bytes`, with zeros behind them. It is no `ArrayVec`, which is not `Copy`: rows of
// the tables, whose memory is fixed, are copied whole.
#[derive(Clone, Copy, Eq, Debug)]
pub struct Bytes<const N: usize> {
    bytes: [u8; N],
    len: usize,
}

impl<const N: usize> Model for Bytes<N> {
    ghost use Rattle.std.specs.Prelude.{ℕ, List, length, take};
    ghost use Rattle.register.specs.Padded.{pad, IsPadded};

    ghost Value = { List ℕ };

    ghost view = { λ b. take b.len b.bytes };

    ghost invariant = { λ b. IsPadded 0 N b.len b.bytes };

    ghost inverse = { λ held. record { bytes = pad 0 N held; len = length held } };

    ghost inverse_ok = { λ b h i. record { bytes = h.padded i; len = h.size i } };
}

// All of `from`, and the filler behind it.
pub(crate) fn padded<T: Copy, const N: usize>(filler: T, from: &[T]) -> [T; N]
    requires { length from.now ≤ N }
    ensures { result ≡ pad filler N from.now }
{
    let mut room = [filler; N];
    room[..from.len()].copy_from_slice(from);
    room
}

impl<const N: usize> Bytes<N> {
    // No bytes.
    pub fn empty() -> Bytes<N>
        ensures { result ≡ [] }
    {
        Bytes {
            bytes: [0; N],
            len: 0,
        }
    }

    // The same bytes, where there are at most N. (A `TryFrom` beside it would be a second name.)
    pub fn new(from: &[u8]) -> Result<Bytes<N>, ValueError>
        ensures { elim result [ Ok b ↦ (b ≡ from.now) × (length from.now ≤ N) | Err _ ↦ N < length from.now ] }
    {
        let len = from.len();
        if len > N {
            return Err(ValueError);
        }
        let bytes = padded(0, from);
        Ok(Bytes { bytes, len })
    }

    // What it holds.
    pub fn as_slice(&self) -> &[u8]
        ensures value { result.now ≡ self.now }
        ensures within { length result.now ≤ N }
    {
        &self.bytes[..self.len]
    }
}

// By hand: a derived one would not say that it decides whether the bytes are the same, and would compare the zeros too.
impl<const N: usize> PartialEq for Bytes<N> {
    ghost eq = { λ x y. bytes_eq x y };

    ghost laws = { partial_equiv_from_equiv nat_list_eq_equiv };

    fn eq(&self, other: &Bytes<N>) -> bool
        ensures same { result ≡ bytes_eq self.now other.now }
        ensures decides { Decides result (self.now ≡ other.now) }
    {
        self.as_slice() == other.as_slice()
    }
}
