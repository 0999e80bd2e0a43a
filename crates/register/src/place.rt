// The rule by which a table chooses the place for a new row.
ghost use Rattle.std.specs.Prelude.{◌≡◌, ℕ, ◌<◌, map, length};
ghost use Rattle.register.specs.Places.{place_in};

// What expires at a moment; an empty place has expiry 0.
pub trait Expiring {
    ghost expiry: { Self → ℕ };

    fn expires(&self) -> u64
        ensures { result ≡ expiry self.now };
}

// The place of the first row of those with the least expiry, or 0 where there is no row.
pub fn place<T: Expiring>(rows: &[T]) -> usize
    ensures first { result ≡ place_in (map T.Expiring.expiry rows.now) }
    ensures within { 0 < length rows.now → result < length rows.now }
{
    let earliest = rows.iter().enumerate().min_by_key(|(_, row)| row.expires());
    earliest.map_or(0, |(i, _)| i)
}
