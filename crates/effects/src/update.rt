// What a step of the writer comes to: its work after it, what changes in the record besides, and whether
// the operation has ended.
ghost use Rattle.std.specs.Prelude.{◌≡◌};
ghost use Rattle.effects.specs.Effects.{updated, reach_after, count_place, count_after, station_after, going_on, ends, paper_effect};
ghost use Rattle.answers.specs.Answers.{paper_ending};

use crate::counts::{with_counted, with_uncounted};
use answers::Ending;
use counting::one_more;
use record::parts::{numbered_place, with_reach, with_station};
use record::{Record, Station, WriterWork};

#[derive(Clone, Copy)]
pub struct Effect {
    pub work: WriterWork,
    pub update: Update,
    pub progress: Option<Ending>,
}

// What a step changes in the record besides the writer's work.
#[derive(Clone, Copy)]
pub enum Update {
    Nothing,
    Reach(u32),
    // one point more uses the index
    Counted(u32),
    // one point less uses the index
    Uncounted(u32),
    Answered(LastCommand),
}

// A station's last command, with its answer.
#[derive(Clone, Copy)]
pub struct LastCommand {
    pub station: u32,
    pub last: Station,
}

impl Update {
    // The record with it.
    #[tactic(auto, unfolding(crate::specs::Effects::updated))]
    pub fn applied_to(self, panel: Record) -> Record
        ensures { result ≡ updated panel self }
    {
        match self {
            Update::Nothing => panel,
            Update::Reach(reach) => with_reach(panel, reach),
            Update::Counted(index) => with_counted(panel, index),
            Update::Uncounted(index) => with_uncounted(panel, index),
            Update::Answered(command) => with_station(panel, command.station, command.last),
        }
    }

    // The reach after it.
    pub fn reach_after(self, reach: u32) -> u32
        ensures { result ≡ reach_after reach self }
    {
        match self {
            Update::Reach(new) => new,
            _ => reach,
        }
    }

    // The place of the count that it changes; 0 where it changes none.
    #[tactic(auto, unfolding(crate::specs::Effects::count_place))]
    pub fn count_place(self) -> usize
        ensures { result ≡ count_place self }
    {
        match self {
            Update::Counted(index) | Update::Uncounted(index) => numbered_place(index, 64),
            _ => 0,
        }
    }

    // The count at that place after it.
    #[tactic(auto, unfolding(crate::specs::Effects::count_after))]
    pub fn count_after(self, m: u32, count: u32) -> u32
        ensures { result ≡ count_after m self count }
    {
        match self {
            Update::Counted(_) => one_more(m, count),
            Update::Uncounted(_) => count.saturating_sub(1),
            _ => count,
        }
    }

    // The last command, after it, of the station whose command's change is underway.
    pub fn station_after(self, station: Station) -> Station
        ensures { result ≡ station_after self station }
    {
        match self {
            Update::Answered(command) => command.last,
            _ => station,
        }
    }
}

// The operation goes on with this work.
#[tactic(auto, unfolding(crate::specs::Effects::going_on))]
pub fn underway(work: WriterWork) -> Effect
    ensures { paper_effect result ≡ going_on work }
{
    Effect {
        work,
        update: Update::Nothing,
        progress: None,
    }
}

// The operation ends, and the writer is idle.
#[tactic(auto, unfolding(crate::specs::Effects::ends))]
pub fn ended(update: Update, ending: Ending) -> Effect
    ensures { paper_effect result ≡ ends update (paper_ending ending) }
{
    Effect {
        work: WriterWork::Idle,
        update,
        progress: Some(ending),
    }
}
