// Deduplication records, and how a change ends by them.
ghost use Rattle.std.specs.Prelude.{◌≡◌, ◌≤◌, true, false, length, Some, None};
ghost use Rattle.register.specs.Model.{bytes_of};
ghost use Rattle.server.specs.Serving.{keys, matches_at, live_at, full, recorded_at, no_record};
ghost use Rattle.serving.specs.Records.{ending_at};
ghost use Rattle.serving.specs.Records.{key_in, record_of, records_of, record_for, recorded_in, ending_of, Repeats};

use register::bytes::Bytes;
use register::place::{Expiring, place};
use register::values::Moment;

// The bytes of the reply to a change: a header, a token, Max-Age, and a body of at most 16 bytes behind its marker.
pub(crate) type ReplyBytes = Bytes<35>;

// How long a done change is remembered, in milliseconds.
const EXCHANGE_LIFETIME: u64 = 247_000;

// What tells a message from others: the peer that sent it, and its Message ID.
#[derive(Clone, Copy, PartialEq, Eq)]
pub(crate) struct MessageKey {
    pub(crate) peer: u32,
    pub(crate) id: u16,
}

// The reply to a change, until it expires. An empty record has expiry 0 and is no `None`: the place rule goes by expiries
// alone, and its trait, of another crate, cannot be had by an `Option`.
#[derive(Clone, Copy)]
pub(crate) struct Record {
    pub(crate) key: MessageKey,
    pub(crate) expiry: u64,
    pub(crate) reply: ReplyBytes,
}

impl Expiring for Record {
    ghost expiry = { λ r. r.expiry };

    fn expires(&self) -> u64 {
        self.expiry
    }
}

impl Record {
    // An empty record.
    pub(crate) fn empty() -> Record
        ensures { record_of result ≡ no_record }
    {
        Record {
            key: MessageKey { peer: 0, id: 0 },
            expiry: 0,
            reply: Bytes::empty(),
        }
    }

    // The record of the reply that was given at this moment to a change with this key.
    pub(crate) fn new(key: MessageKey, moment: Moment, reply: &[u8]) -> Record
        requires { length reply.now ≤ 35 }
        ensures { record_of result ≡ record_for key.peer key.id moment.ms reply.now }
    {
        Record {
            key,
            expiry: moment.millis() + EXCHANGE_LIFETIME,
            reply: Bytes::new(reply).unwrap(),
        }
    }

    // Whether it has this key, and has not expired.
    fn is_live(&self, ms: u64, key: MessageKey) -> bool
        ensures { result ≡ matches_at ms key.peer key.id (key_in self.now) }
    {
        self.key == key && ms < self.expiry
    }
}

// How an admitted change ends: its first reply is given again, or it is met with silence, or it is dropped for want of
// a record, or it is done. No one of these is a failure of another, so it is no `Result`.
#[derive(Clone, Copy, PartialEq, Eq, Debug)]
pub(crate) enum Ending {
    Repeated(ReplyBytes),
    Silenced,
    Dropped,
    Done,
}

// The reply in the live record with this key.
fn find(records: &[Record], ms: u64, key: MessageKey) -> Option<ReplyBytes>
    ensures { elim result [ Some b ↦ (live_at ms key.peer key.id (keys (records_of records.now)) ≡ true) × (bytes_of b ≡ recorded_at ms key.peer key.id (records_of records.now)) | None ↦ live_at ms key.peer key.id (keys (records_of records.now)) ≡ false ] }
{
    records
        .iter()
        .find(|record| record.is_live(ms, key))
        .map(|record| record.reply)
}

// Whether no record has expired or is empty.
fn is_full(records: &[Record], ms: u64) -> bool
    ensures { result ≡ full (keys (records_of records.now)) ms }
{
    records.iter().all(|record| ms < record.expiry)
}

// Puts the record where the place rule says.
pub(crate) fn keep(records: &mut [Record; 32], latest: Record)
    ensures { records_of records.new ≡ recorded_in (records_of records.old) (record_of latest) }
{
    let at = place(records);
    records[at] = latest;
}

// How a change with this key ends, confirmable or not.
pub(crate) fn settle(records: &[Record], ms: u64, key: MessageKey, confirmable: bool) -> Ending
    ensures ending { ending_of result ≡ ending_at ms key.peer key.id confirmable (keys (records_of records.now)) }
    ensures repeats { Repeats result (recorded_at ms key.peer key.id (records_of records.now)) }
{
    match find(records, ms, key) {
        Some(reply) if confirmable => Ending::Repeated(reply),
        Some(_) => Ending::Silenced,
        None if is_full(records, ms) => Ending::Dropped,
        None => Ending::Done,
    }
}
