// What a whole operation of the writer comes to.
ghost use Rattle.std.specs.Prelude.{◌≡◌};
ghost use Rattle.whole_operations.specs.Whole.{leaves, changes_any, changes_between};

use answers::Completion;
use conditions::is_within;
use record::Record;
use record::parts::{count_in, with_count};

// How many stored points use an index.
#[derive(Clone, Copy)]
pub struct IndexCount {
    pub index: u32,
    pub count: u32,
}

// What the operation changes in the record. The writer is idle again.
#[derive(Clone, Copy)]
pub struct Changes {
    // the reach after it
    pub reach: u32,
    // the count that is another than before, as it is after it, if there is one
    pub count: Option<IndexCount>,
}

// An operation that was carried out to its end.
#[derive(Clone, Copy)]
pub struct Finished {
    pub changes: Changes,
    pub completion: Completion,
}

// The record after the operation.
#[tactic(auto, unfolding(crate::specs::Whole::leaves, crate::specs::Whole::with_recount, record::specs::Parts::with_reach))]
pub fn with_changes(mut panel: Record, changes: Changes) -> Record
    ensures { result ≡ leaves panel changes }
{
    panel.reach = changes.reach;
    match changes.count {
        Some(IndexCount { index, count }) => with_count(panel, index, count),
        None => panel,
    }
}

// Whether they change anything in a record of this reach.
#[tactic(auto, unfolding(crate::specs::Whole::changes_any, conditions::specs::Conditions::either))]
pub fn has_changes(changes: Changes, reach: u32) -> bool
    ensures { result ≡ changes_any reach changes }
{
    changes.count.is_some() || changes.reach != reach
}

impl Changes {
    // Without a count that this record has already: on one that no history leads to, a count may be at its end
    // before the operation.
    pub(crate) fn since(self, panel: &Record) -> Changes
        ensures { (result ≡ changes_between panel.now (leaves panel.now self)) × (leaves panel.now result ≡ leaves panel.now self) }
    {
        let Changes { reach, count } = self;
        match count {
            Some(IndexCount { index, count })
                if is_within(1, index, 64) && count_in(&panel.counts, index) != count => self,
            _ => Changes { reach, count: None },
        }
    }
}
