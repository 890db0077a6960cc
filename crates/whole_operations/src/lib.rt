// Whole operations, for a caller with nothing to do in between: started, and stepped to their end. They
// hand back what they change in the record, not the record, which would be copied for it.
#![tactic(auto)]

mod changes;
mod lookup;
mod putting;
mod removing;
mod searching;

pub use changes::{Changes, Finished, IndexCount, has_changes, with_changes};
pub use lookup::whole_lookup;
pub use putting::whole_put;
pub use removing::whole_removal;
