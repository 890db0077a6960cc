// What the writer's steps do to slots and record: the accesses they make (`memory`), and what follows from
// one: the work after it, the update of the record, and whether the operation has ended (`update`,
// `counts`).
#![tactic(auto)]

pub mod counts;
pub mod memory;
pub mod update;
