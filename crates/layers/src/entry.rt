// The entries of a cache, and how they are searched, chosen and replaced.
ghost use Rattle.std.specs.Prelude.{◌≡◌, ◌<◌, true, false, ◌&&◌, length, Some, None, nat_le};
ghost use Rattle.register.specs.Model.{segments_of, read_of};
ghost use Rattle.register.specs.Values.{same_path};
ghost use Rattle.register.specs.Cached.{answers_at, entry_for, entry_place, from_entries, from_entry, hit, holds, is_content, kept_after, no_entry};
ghost use Rattle.layers.specs.Entries.{entry_of, entries_of};

use register::bytes::Bytes;
use register::path::Path;
use register::place::{Expiring, place};
use register::values::{Moment, ReadAnswer, ReadCode};

// A content that was read: its path and body, the moment at which it was stored, and the moment up to which it is
// fresh. An empty place has expiry 0: the place rule asks this of it, so an `Option` would only say it a second time.
#[derive(Clone, Copy, PartialEq, Eq, Debug)]
pub struct CacheEntry {
    path: Path,
    body: Bytes<256>,
    stored: u64,
    expiry: u64,
}

impl Expiring for CacheEntry {
    ghost expiry = { λ e. e.expiry };

    fn expires(&self) -> u64 {
        self.expiry
    }
}

impl CacheEntry {
    // An empty place.
    pub fn empty() -> CacheEntry
        ensures { entry_of result ≡ no_entry }
    {
        CacheEntry {
            path: Path::empty(),
            body: Bytes::empty(),
            stored: 0,
            expiry: 0,
        }
    }

    // The entry for what was read at the moment: it is fresh for as many seconds as the answer says.
    pub fn new(path: &Path, moment: Moment, answer: &ReadAnswer) -> CacheEntry
        ensures { entry_of result ≡ entry_for (segments_of path.now) moment.ms (read_of answer.now) }
    {
        let ms = moment.millis();
        CacheEntry {
            path: *path,
            body: answer.body,
            stored: ms,
            expiry: ms + 1000 * u64::from(answer.max_age),
        }
    }

    // Whether it is of the path. An empty place is of the path of no segment.
    fn is_of(&self, path: &Path) -> bool
        ensures { result ≡ same_path (entry_of self.now).path (segments_of path.now) }
    {
        self.path == *path
    }

    // Whether it answers a read of the path at this time.
    fn is_fresh(&self, path: &Path, ms: u64) -> bool
        ensures { result ≡ answers_at (segments_of path.now) ms (entry_of self.now) }
    {
        self.is_of(path) && (self.stored <= ms && ms < self.expiry)
    }

    // Whether it is an entry of the path, fresh or not.
    fn is_for(&self, path: &Path) -> bool
        ensures { result ≡ holds (segments_of path.now) (entry_of self.now) }
    {
        0 < self.expiry && self.is_of(path)
    }

    // Its body, with the whole seconds that are left.
    fn answer(&self, ms: u64) -> ReadAnswer
        ensures { read_of result ≡ from_entry (entry_of self.now) ms }
    {
        let seconds = self.expiry.saturating_sub(ms) / 1000;
        ReadAnswer::content(self.body, u32::try_from(seconds).unwrap_or(u32::MAX))
    }
}

// What the first entry gives that answers a read of the path at this time.
pub fn find(entries: &[CacheEntry], path: &Path, ms: u64) -> Option<ReadAnswer>
    ensures { elim result [ Some x ↦ (hit (segments_of path.now) ms (entries_of entries.now) ≡ true) × (read_of x ≡ from_entries (segments_of path.now) ms (entries_of entries.now)) | None ↦ hit (segments_of path.now) ms (entries_of entries.now) ≡ false ] }
{
    let entry = entries.iter().find(|entry| entry.is_fresh(path, ms))?;
    Some(entry.answer(ms))
}

// The place for a new entry of the path: that of an entry of the same path, or else the one that expires first. (What the
// closure of an `unwrap_or_else` gives is out of the prover's reach.)
fn place_for(entries: &[CacheEntry], path: &Path) -> usize
    ensures value { result ≡ entry_place (segments_of path.now) (entries_of entries.now) }
    ensures within { 0 < length entries.now → result < length entries.now }
{
    match entries.iter().position(|entry| entry.is_for(path)) {
        Some(i) => i,
        None => place(entries),
    }
}

// Whether an answer is kept: a content that stays true for a second at least.
fn is_kept(answer: &ReadAnswer) -> bool
    ensures { result ≡ (is_content (read_of answer.now).shown.code && nat_le 1 (read_of answer.now).max_age) }
{
    answer.code == ReadCode::Content && answer.max_age >= 1
}

// Keeps what was read at the moment, where it is to be kept.
pub fn keep(entries: &mut [CacheEntry; 8], path: &Path, moment: Moment, answer: &ReadAnswer)
    ensures { entries_of entries.new ≡ kept_after (segments_of path.now) moment.ms (read_of answer.now) (entries_of entries.old) }
{
    if is_kept(answer) {
        let i = place_for(entries, path);
        entries[i] = CacheEntry::new(path, moment, answer);
    }
}
