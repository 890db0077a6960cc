// A removal's step: search; found, store 0 and uncount the index; then one more step where the reach
// has to be lowered.
#![tactic(auto)]

ghost use Rattle.std.specs.Prelude.{◌≡◌};
ghost use Rattle.effects.specs.Effects.{paper_effect};
ghost use Rattle.removal.specs.Removal.{removal_access, removal_at, removal_answered, is_last, removal_empties, removal_lowers, removal_advance};

use answers::Ending;
use effects::counts::largest_counted;
use effects::memory::{WriterAccess, store_word};
use effects::update::{Effect, Update, ended};
use record::parts::count_in;
use record::{Place, Record, Removal, RemovalStage, WriterWork};
use search::{Searched, search_access, search_advance};

// Part 1: the access that comes next.
#[tactic(auto, unfolding(crate::specs::Removal::removal_access, crate::specs::Removal::removal_stage_access))]
pub fn removal_access(removal: Removal, panel: &Record) -> WriterAccess
    ensures { result ≡ removal_access panel.now.m panel.now.k panel.now.counts removal }
{
    let point = removal.point;
    match removal.stage {
        RemovalStage::Searching(search) => {
            let access = search_access(search, point, panel.m);
            WriterAccess::Read(access)
        }
        RemovalStage::Found(place) => store_word(panel.m, point, place.index, 0),
        RemovalStage::Lowering => {
            WriterAccess::StoreReach(largest_counted(panel.k, &panel.counts))
        }
    }
}

// Part 3: what follows from the reach, or from the word read or stored.
#[tactic(auto, unfolding(crate::specs::Removal::removal_advance, crate::specs::Removal::removal_searched, crate::specs::Removal::removal_stage_advance))]
pub fn removal_advance(removal: Removal, panel: &Record, word: u64) -> Effect
    ensures { paper_effect result ≡ removal_advance panel.now.k panel.now.reach panel.now.counts removal word }
{
    let point = removal.point;
    match removal.stage {
        RemovalStage::Searching(search) => match search_advance(search, point, panel.reach, word) {
            Searched::Going(search) => {
                removal_at(removal, RemovalStage::Searching(search), Update::Nothing)
            }
            Searched::Answered(answer) => removal_answered(removal, answer),
        },
        RemovalStage::Found(place) => removal_empties(removal, panel, place.index),
        RemovalStage::Lowering => removal_lowers(panel),
    }
}

// The removal goes on at this stage.
#[tactic(auto, unfolding(crate::specs::Removal::removal_at))]
fn removal_at(removal: Removal, stage: RemovalStage, update: Update) -> Effect
    ensures { paper_effect result ≡ removal_at removal stage update }
{
    Effect {
        work: WriterWork::Removing(Removal { stage, ..removal }),
        update,
        progress: None,
    }
}

// What the search's answer leads to.
#[tactic(auto, unfolding(crate::specs::Removal::removal_answered))]
pub fn removal_answered(removal: Removal, answer: Option<Place>) -> Effect
    ensures { paper_effect result ≡ removal_answered removal answer }
{
    let Some(place) = answer else {
        return ended(Update::Nothing, Ending::Unknown);
    };
    removal_at(removal, RemovalStage::Found(place), Update::Nothing)
}

// The index is the reach, and no point uses it once this one is uncounted.
#[tactic(auto, unfolding(conditions::specs::Conditions::both, crate::specs::Removal::is_last))]
fn is_last(panel: &Record, index: u32) -> bool
    ensures { result ≡ is_last panel.now.reach panel.now.counts index }
{
    count_in(&panel.counts, index).saturating_sub(1) == 0 && index == panel.reach
}

// The slot is emptied. The reach is lowered by a step of its own.
#[tactic(auto, unfolding(crate::specs::Removal::removal_empties))]
fn removal_empties(removal: Removal, panel: &Record, index: u32) -> Effect
    ensures { paper_effect result ≡ removal_empties panel.now.reach panel.now.counts removal index }
{
    if is_last(panel, index) {
        removal_at(removal, RemovalStage::Lowering, Update::Uncounted(index))
    } else {
        ended(Update::Uncounted(index), Ending::Removed(panel.reach))
    }
}

// The reach is lowered, and the removal ends.
#[tactic(auto, unfolding(crate::specs::Removal::removal_lowers))]
fn removal_lowers(panel: &Record) -> Effect
    ensures { paper_effect result ≡ removal_lowers panel.now.k panel.now.counts }
{
    let lowered = largest_counted(panel.k, &panel.counts);
    ended(Update::Reach(lowered), Ending::Removed(lowered))
}
