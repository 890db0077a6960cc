// The ranges of the work underway: a reader's and the writer's, one function for each group.
#![tactic(auto)]

ghost use Rattle.std.specs.Prelude.{◌≡◌};
ghost use Rattle.work_ranges.specs.WorkRanges.{search_in_range, steps_in_range, lookup_in_range, work_in_range, put_stage_in_range, put_in_range, command_in_range, alteration_in_range, change_stage_in_range, change_in_range, removal_stage_in_range, removal_in_range, writer_in_range};

use counting::steps::{OperationKind, step_bound};
use record::{
    Alteration, Change, ChangeStage, Command, Lookup, Put, PutStage, ReaderWork, Removal,
    RemovalStage, Search, WriterWork,
};
use slot_words::points::is_valid_point;

#[tactic(auto, unfolding(conditions::specs::Conditions::both, conditions::specs::Conditions::within, crate::specs::WorkRanges::search_in_range))]
fn is_search_in_range(search: Search, k: u32) -> bool
    ensures { result ≡ search_in_range k search }
{
    match search {
        Search::Unread => true,
        Search::Probing(p) => p.reach <= k && (1..=p.reach).contains(&p.next),
    }
}

#[tactic(auto, unfolding(crate::specs::WorkRanges::steps_in_range))]
fn are_steps_in_range(steps: u32, kind: OperationKind, k: u32) -> bool
    ensures { result ≡ steps_in_range kind k steps }
{
    u64::from(steps) <= step_bound(kind, k)
}

#[tactic(auto, unfolding(conditions::specs::Conditions::both, crate::specs::WorkRanges::lookup_in_range))]
fn is_lookup_in_range(lookup: Lookup, k: u32) -> bool
    ensures { result ≡ lookup_in_range k lookup }
{
    is_valid_point(lookup.point)
        && is_search_in_range(lookup.search, k)
        && are_steps_in_range(lookup.steps, OperationKind::Lookup, k)
}

#[tactic(auto, unfolding(crate::specs::WorkRanges::work_in_range))]
pub fn is_work_in_range(work: ReaderWork, m: u32, k: u32) -> bool
    ensures { result ≡ work_in_range m k work }
{
    match work {
        ReaderWork::Idle => true,
        ReaderWork::LookingUp(lookup) => is_lookup_in_range(lookup, k),
        ReaderWork::Walking(walk) => walk.next < m,
    }
}

#[tactic(auto, unfolding(conditions::specs::Conditions::both, conditions::specs::Conditions::within, crate::specs::WorkRanges::put_stage_in_range))]
fn is_put_stage_in_range(stage: PutStage, k: u32) -> bool
    ensures { result ≡ put_stage_in_range k stage }
{
    match stage {
        PutStage::Searching(search) => is_search_in_range(search, k),
        PutStage::Scanning(index) | PutStage::Chosen(index) => (1..=k).contains(&index),
        PutStage::Found(place) => (1..=k).contains(&place.index),
    }
}

#[tactic(auto, unfolding(conditions::specs::Conditions::both, crate::specs::WorkRanges::put_in_range))]
fn is_put_in_range(put: Put, k: u32) -> bool
    ensures { result ≡ put_in_range k put }
{
    is_valid_point(put.point)
        && is_put_stage_in_range(put.stage, k)
        && are_steps_in_range(put.steps, OperationKind::Put, k)
}

#[tactic(auto, unfolding(conditions::specs::Conditions::both, conditions::specs::Conditions::within, crate::specs::WorkRanges::command_in_range))]
fn is_command_in_range(command: Command) -> bool
    ensures { result ≡ command_in_range command }
{
    (1..=32).contains(&command.station)
        && (1..=16777215).contains(&command.number)
        && command.action <= 2
}

#[tactic(auto, unfolding(crate::specs::WorkRanges::alteration_in_range))]
fn is_alteration_in_range(alteration: Alteration) -> bool
    ensures { result ≡ alteration_in_range alteration }
{
    match alteration {
        Alteration::Given(_) => true,
        Alteration::Commanded(command) => is_command_in_range(command),
    }
}

#[tactic(auto, unfolding(conditions::specs::Conditions::both, conditions::specs::Conditions::within, crate::specs::WorkRanges::change_stage_in_range))]
fn is_change_stage_in_range(stage: ChangeStage, k: u32) -> bool
    ensures { result ≡ change_stage_in_range k stage }
{
    match stage {
        ChangeStage::Searching(search) => is_search_in_range(search, k),
        ChangeStage::Found(place) => (1..=k).contains(&place.index),
    }
}

#[tactic(auto, unfolding(conditions::specs::Conditions::both, crate::specs::WorkRanges::change_in_range))]
fn is_change_in_range(change: Change, k: u32) -> bool
    ensures { result ≡ change_in_range k change }
{
    is_valid_point(change.point)
        && is_alteration_in_range(change.alteration)
        && is_change_stage_in_range(change.stage, k)
        && are_steps_in_range(change.steps, OperationKind::Change, k)
}

#[tactic(auto, unfolding(conditions::specs::Conditions::both, conditions::specs::Conditions::within, crate::specs::WorkRanges::removal_stage_in_range))]
fn is_removal_stage_in_range(stage: RemovalStage, k: u32) -> bool
    ensures { result ≡ removal_stage_in_range k stage }
{
    match stage {
        RemovalStage::Searching(search) => is_search_in_range(search, k),
        RemovalStage::Found(place) => (1..=k).contains(&place.index),
        RemovalStage::Lowering => true,
    }
}

#[tactic(auto, unfolding(conditions::specs::Conditions::both, crate::specs::WorkRanges::removal_in_range))]
fn is_removal_in_range(removal: Removal, k: u32) -> bool
    ensures { result ≡ removal_in_range k removal }
{
    is_valid_point(removal.point)
        && is_removal_stage_in_range(removal.stage, k)
        && are_steps_in_range(removal.steps, OperationKind::Removal, k)
}

#[tactic(auto, unfolding(crate::specs::WorkRanges::writer_in_range))]
pub fn is_writer_in_range(work: WriterWork, k: u32) -> bool
    ensures { result ≡ writer_in_range k work }
{
    match work {
        WriterWork::Idle => true,
        WriterWork::Putting(put) => is_put_in_range(put, k),
        WriterWork::Changing(change) => is_change_in_range(change, k),
        WriterWork::Removing(removal) => is_removal_in_range(removal, k),
    }
}
