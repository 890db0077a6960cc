// A search for a point, by lookups and by the writer's operations: read the reach r, then positions 1 to r.
#![tactic(auto)]

pub mod access;

ghost use Rattle.std.specs.Prelude.{◌≡◌};
ghost use Rattle.search.specs.Search.{search_access, first_probe, probe_advance, search_advance};

use crate::access::ReadAccess;
use record::{Place, Probe, Search};
use slot_words::word::{point_of, value_of};

// How a search stands after one of its steps.
#[derive(Clone, Copy)]
pub enum Searched {
    Going(Search),
    // with the place of the point, or none: refusal 7
    Answered(Option<Place>),
}

// Part 1: the access that comes next.
#[tactic(auto, unfolding(crate::specs::Search::search_access))]
pub fn search_access(search: Search, point: u32, m: u32) -> ReadAccess
    ensures { result ≡ search_access m point search }
{
    match search {
        Search::Unread => ReadAccess::Reach,
        Search::Probing(probe) => ReadAccess::Slot(hash::position(m, point, probe.next)),
    }
}

// Part 3: what follows from the reach, in the first step, and from the word read, in the others.
#[tactic(auto, unfolding(crate::specs::Search::search_advance))]
pub fn search_advance(search: Search, point: u32, reach: u32, word: u64) -> Searched
    ensures { result ≡ search_advance reach point search word }
{
    match search {
        Search::Unread => first_probe(reach),
        Search::Probing(probe) => probe_advance(probe, point, word),
    }
}

// The reach has been read. With reach 0 there is nothing to probe.
#[tactic(auto, unfolding(crate::specs::Search::first_probe))]
fn first_probe(reach: u32) -> Searched
    ensures { result ≡ first_probe reach }
{
    if reach == 0 {
        Searched::Answered(None)
    } else {
        Searched::Going(Search::Probing(Probe { reach, next: 1 }))
    }
}

// A position has been read. A removal may have left it empty, so the search goes on to the reach that
// it remembers.
#[tactic(auto, unfolding(crate::specs::Search::holds_point, crate::specs::Search::next_probe, crate::specs::Search::probe_advance))]
fn probe_advance(probe: Probe, point: u32, word: u64) -> Searched
    ensures { result ≡ probe_advance point probe word }
{
    if point_of(word) == point {
        Searched::Answered(Some(Place {
            index: probe.next,
            value: value_of(word),
        }))
    } else if probe.next < probe.reach {
        Searched::Going(Search::Probing(Probe {
            next: probe.next + 1,
            ..probe
        }))
    } else {
        Searched::Answered(None)
    }
}
