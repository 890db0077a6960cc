// A change's step: search; found, store (value AND keep) XOR flip. A command's change stores the command
// and its answer in the step in which it ends.
#![tactic(auto)]

ghost use Rattle.std.specs.Prelude.{◌≡◌};
ghost use Rattle.effects.specs.Effects.{paper_effect};
ghost use Rattle.change.specs.Change.{action_masks, masks_of, new_value, change_access, command_ends, commanding_station, change_at, change_answered, change_stores, change_advance};

use answers::Ending;
use effects::memory::{WriterAccess, store_word};
use effects::update::{Effect, LastCommand, Update, ended, underway};
use record::{Alteration, Change, ChangeStage, Command, Masks, Place, Station, WriterWork};
use search::{Searched, search_access, search_advance};
use slot_words::word::word_of;

// Action 0 clears bit 0, 1 sets it, 2 toggles it. A record that no history leads to may hold an action above 2,
// which is taken for a toggle.
#[tactic(auto, unfolding(crate::specs::Change::action_masks))]
pub fn action_masks(action: u32) -> Masks
    ensures { result ≡ action_masks action }
{
    match action {
        0 => Masks {
            keep: 0xFFFF_FFFE,
            flip: 0,
        },
        1 => Masks {
            keep: 0xFFFF_FFFE,
            flip: 1,
        },
        _ => Masks {
            keep: 0xFFFF_FFFF,
            flip: 1,
        },
    }
}

#[tactic(auto, unfolding(crate::specs::Change::masks_of))]
fn masks_of(alteration: Alteration) -> Masks
    ensures { result ≡ masks_of alteration }
{
    match alteration {
        Alteration::Given(masks) => masks,
        Alteration::Commanded(command) => action_masks(command.action),
    }
}

#[tactic(auto, unfolding(crate::specs::Change::new_value))]
fn new_value(alteration: Alteration, value: u32) -> u32
    ensures { result ≡ new_value alteration value }
{
    let masks = masks_of(alteration);
    (value & masks.keep) ^ masks.flip
}

// Part 1: the access that comes next.
#[tactic(auto, unfolding(crate::specs::Change::change_access, crate::specs::Change::change_stage_access))]
pub fn change_access(change: Change, m: u32) -> WriterAccess
    ensures { result ≡ change_access m change }
{
    let point = change.point;
    match change.stage {
        ChangeStage::Searching(search) => WriterAccess::Read(search_access(search, point, m)),
        ChangeStage::Found(place) => {
            let value = new_value(change.alteration, place.value);
            store_word(m, point, place.index, word_of(point, value))
        }
    }
}

// Part 3: what follows from the reach, or from the word read or stored.
#[tactic(auto, unfolding(crate::specs::Change::change_advance, crate::specs::Change::change_searched, crate::specs::Change::change_stage_advance))]
pub fn change_advance(change: Change, reach: u32, word: u64) -> Effect
    ensures { paper_effect result ≡ change_advance reach change word }
{
    match change.stage {
        ChangeStage::Searching(search) => match search_advance(search, change.point, reach, word) {
            Searched::Going(search) => change_at(change, ChangeStage::Searching(search)),
            Searched::Answered(answer) => change_answered(change, answer),
        },
        ChangeStage::Found(place) => change_stores(change, place),
    }
}

// The change goes on at this stage.
#[tactic(auto, unfolding(crate::specs::Change::change_at))]
fn change_at(change: Change, stage: ChangeStage) -> Effect
    ensures { paper_effect result ≡ change_at change stage }
{
    underway(WriterWork::Changing(Change { stage, ..change }))
}

// What the search's answer leads to.
#[tactic(auto, unfolding(crate::specs::Change::change_answered))]
fn change_answered(change: Change, answer: Option<Place>) -> Effect
    ensures { paper_effect result ≡ change_answered change answer }
{
    let Some(place) = answer else {
        return ended(command_ends(change, None), Ending::Unknown);
    };
    change_at(change, ChangeStage::Found(place))
}

// The new word is stored, and the change ends.
#[tactic(auto, unfolding(crate::specs::Change::change_stores))]
fn change_stores(change: Change, place: Place) -> Effect
    ensures { paper_effect result ≡ change_stores change place }
{
    let value = new_value(change.alteration, place.value);
    ended(command_ends(change, Some(value)), Ending::Changed(value))
}

// What the end of a change stores in the record: of a command's change the command and its answer.
#[tactic(auto, unfolding(crate::specs::Change::alteration_ends, crate::specs::Change::command_ends))]
fn command_ends(change: Change, answer: Option<u32>) -> Update
    ensures { result ≡ command_ends change answer }
{
    match change.alteration {
        Alteration::Given(_) => Update::Nothing,
        Alteration::Commanded(
            Command {
                station,
                number,
                action,
            },
        ) => Update::Answered(LastCommand {
            station,
            last: Station {
                number,
                point: change.point,
                action,
                answer,
            },
        }),
    }
}

// The station whose command the change is; 0 where it is no command's.
pub fn commanding_station(alteration: Alteration) -> u32
    ensures { result ≡ commanding_station alteration }
{
    match alteration {
        Alteration::Given(_) => 0,
        Alteration::Commanded(command) => command.station,
    }
}
