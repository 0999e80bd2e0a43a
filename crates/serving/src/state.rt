// What a server keeps.
ghost use Rattle.std.specs.Prelude.{◌+◌, ◌≤◌};

use crate::record::Record;
use calls::answer::Counts;

// The stack that it serves, the last accepted moment, how many arrivals were accepted, the deduplication records, and
// how many arrivals ended in each way. An array of records and no map, since the server has no heap. No `impl Model`: its
// value would be over the states of the stack, a ghost member of a bound, which a model cannot name.
#[derive(Drop)]
pub struct Server<R> {
    pub(crate) stack: R,
    pub(crate) last: u64,
    pub(crate) accepted: u32,
    pub(crate) records: [Record; 32],
    pub(crate) counts: Counts,
    ghost within: { counts.done + counts.repeated + counts.silenced + counts.dropped ≤ accepted },
}
