// What a host calls the server with.

// A datagram of a peer, and the moment at which it came, in milliseconds.
#[derive(Clone, Copy, PartialEq, Eq, Debug)]
pub struct Arrival<'a> {
    pub moment: u64,
    pub peer: u32,
    pub datagram: &'a [u8],
}

// An arrival, or the question how the arrivals so far ended.
#[derive(Clone, Copy, PartialEq, Eq, Debug)]
pub enum Call<'a> {
    Arrival(Arrival<'a>),
    Tally,
}
