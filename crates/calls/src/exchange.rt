// Whom a reply goes to.

// What a reply repeats of a request: whether it was confirmable, its Message ID and its token. A flag says the first, since
// acknowledgements and Resets get no reply. A writer refuses a token of over 8 bytes: a bound here would ask more of callers.
#[derive(Clone, Copy, PartialEq, Eq, Debug)]
pub struct Exchange<'a> {
    pub confirmable: bool,
    pub id: u16,
    pub token: &'a [u8],
}
