// A cache of eight entries before a resource.
ghost use Rattle.std.specs.Prelude.{◌≡◌};
ghost use Rattle.register.specs.Meaning.{ErrorsKeep};
ghost use Rattle.register.specs.Cached.{all_empty, cached};
ghost use Rattle.register.proofs.Caches.{cached_laws};
ghost use Rattle.layers.specs.States.{cache_state};

use crate::entry::{CacheEntry, find, keep};
use register::path::Path;
use register::resource::Resource;
use register::values::{ChangeAnswer, ChangeRequest, Moment, ReadAnswer};

// Answers a read from an entry while that is fresh. Every change empties the cache. An array of entries and no map, since
// the server has no heap.
#[derive(Drop)]
pub struct Cache<R> {
    below: R,
    entries: [CacheEntry; 8],
}

impl<R: Resource> Cache<R> {
    // An empty cache before the resource.
    pub fn new(below: R) -> Cache<R>
        ensures first { cache_state R.Resource.meaning R.Resource.state result ≡ record { below = R.Resource.state below; entries = all_empty } }
        ensures sound { R.Resource.meaning.Sound (R.Resource.state below) → (cached R.Resource.meaning).Sound (cache_state R.Resource.meaning R.Resource.state result) }
        ensures errors { ErrorsKeep R.Resource.meaning → ErrorsKeep (cached R.Resource.meaning) }
    {
        Cache {
            below,
            entries: [CacheEntry::empty(); 8],
        }
    }
}

impl<R: Resource> Resource for Cache<R> {
    ghost meaning = { cached R.Resource.meaning };

    ghost state = { cache_state R.Resource.meaning R.Resource.state };

    ghost lawful = { cached_laws R.Resource.meaning R.Resource.lawful };

    fn get(&mut self, path: &Path, moment: Moment) -> ReadAnswer {
        if let Some(answer) = find(&self.entries, path, moment.millis()) {
            return answer;
        }
        let answer = self.below.get(path, moment);
        keep(&mut self.entries, path, moment, &answer);
        answer
    }

    fn change(&mut self, request: &ChangeRequest, moment: Moment) -> ChangeAnswer {
        self.entries.fill(CacheEntry::empty());
        self.below.change(request, moment)
    }
}
