// The search of a whole operation, which lookups, puts and removals share.
ghost use Rattle.std.specs.Prelude.{suc, ◌≤◌, ◌≡◌};
ghost use Rattle.record.specs.declared.Search.TheVariants.{Unread};
ghost use Rattle.whole_operations.specs.WholeFacts.{search_end};

use record::{Place, Probe, Search};
use search::access::word_read;
use search::{Searched, search_access, search_advance};

// What a search came to, and how many steps it took.
#[derive(Clone, Copy)]
pub(crate) struct SearchEnd {
    pub answer: Option<Place>,
    pub steps: u32,
}

// The search from its first step, which reads the reach, to its last. All that changes from step to step is
// the next index, which is kept as a number: the compiler would pass an enum through memory at each step.
pub(crate) fn whole_search(slots: &[u64], m: u32, point: u32, reach: u32) -> SearchEnd
    requires { reach ≤ 64 }
    ensures { result ≡ search_end slots.now m point reach (suc reach) 0 Unread }
{
    for next in 1..=reach {
        let search = Search::Probing(Probe { reach, next });
        let word = word_read(slots, search_access(search, point, m));
        if let Searched::Answered(answer) = search_advance(search, point, reach, word) {
            // the step that read the reach, and one for each position
            return SearchEnd {
                answer,
                steps: next + 1,
            };
        }
    }
    SearchEnd {
        answer: None,
        steps: reach + 1,
    }
}
