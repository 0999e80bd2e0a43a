// What a block of a trace holds.
ghost use Rattle.std.specs.Prelude.{◌≡◌};
ghost use Rattle.trace.specs.Entries.{stack_number, IsStackOf, IsKindOf};

use calls::call::Call;

// The stack that a head asks for.
#[derive(Clone, Copy, PartialEq, Eq, Debug)]
pub enum StackNumber {
    One = 1,
    Two = 2,
}

impl StackNumber {
    // The number of the stack, 1 or 2.
    pub fn number(self) -> u8
        ensures { result ≡ stack_number self }
    {
        self as u8
    }
}

impl TryFrom<u8> for StackNumber {
    type Error = Damaged;

    ghost try_from_gives = { IsStackOf };

    fn try_from(number: u8) -> Result<StackNumber, Damaged> {
        match number {
            1 => Ok(StackNumber::One),
            2 => Ok(StackNumber::Two),
            _ => Err(Damaged),
        }
    }
}

// The kinds of block, each with the number that a block of it begins with.
#[derive(Clone, Copy, PartialEq, Eq, Debug)]
pub(crate) enum Kind {
    Head = 1,
    Arrival = 2,
    Tally = 3,
}

impl TryFrom<u8> for Kind {
    type Error = Damaged;

    ghost try_from_gives = { IsKindOf };

    fn try_from(number: u8) -> Result<Kind, Damaged> {
        match number {
            1 => Ok(Kind::Head),
            2 => Ok(Kind::Arrival),
            3 => Ok(Kind::Tally),
            _ => Err(Damaged),
        }
    }
}

// The head of a trace, or a call; the datagram of an arrival is a part of the block.
#[derive(Clone, Copy, PartialEq, Eq, Debug)]
pub enum Block<'a> {
    Head(StackNumber),
    Call(Call<'a>),
}

// There is no good block.
#[derive(Clone, Copy, PartialEq, Eq, Debug)]
pub struct Damaged;
