// A table that a host lends, of which a resource uses the first rows, or all where there are fewer. Once for each kind of
// reference, as the library's `get` and `get_mut`.
ghost use Rattle.std.specs.Prelude.{◌≡◌, ◌≤◌, ◌++◌, length, take, drop};
ghost use Rattle.std.specs.Borrow.{sem, LendsBoth, Array};

// The rows that are used, at most so many.
pub(crate) fn front<T>(table: &[T], most: usize) -> &[T]
    ensures used { result.now ≡ take most table.now }
    ensures within { length result.now ≤ most }
{
    let n = table.len().min(most);
    &table[..n]
}

// The rows that are used, at most so many, and the rows past these.
pub(crate) fn split<T>(table: &mut [T], most: usize) -> (&mut [T], &mut [T])
    ensures* writes_back { sem 𝓛 (LendsBoth (Array T.row 0) (Array T.row 0) (Array T.row 0) table.entry result ◌++◌) }
    ensures used { result.0.now ≡ take most table.old }
    ensures within { length result.0.now ≤ most }
    ensures rest { result.1.now ≡ drop most table.old }
{
    let n = table.len().min(most);
    table.split_at_mut(n)
}
