// The writer's machine: puts, changes and removals, a command's change among them. A start takes no
// step; every step is counted and makes one access, in three parts: which access comes next (pure), the
// access, and what follows from the word (pure).
#![tactic(auto)]

mod starts;
mod step;
mod work;

pub use starts::{
    StartedWriter, change_started, judge_start, put_started, removal_started, start_change,
    start_put, start_removal,
};
pub use step::{step_judged, step_writer};
pub use work::{SteppedWriter, station_at, step_work, writer_access, writer_advance};
