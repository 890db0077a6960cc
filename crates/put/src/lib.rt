// A put's step: search; found, store the new word there; else take the first empty position, the reach
// stored before the slot where the index exceeds it.
#![tactic(auto)]

ghost use Rattle.std.specs.Prelude.{◌≡◌};
ghost use Rattle.effects.specs.Effects.{paper_effect};
ghost use Rattle.put.specs.Put.{put_access, put_at, put_answered, put_scanned, put_takes, put_advance};

use answers::{Ending, Spot};
use effects::memory::{WriterAccess, store_word};
use effects::update::{Effect, Update, ended, underway};
use record::{Place, Put, PutStage, WriterWork};
use search::access::ReadAccess;
use search::{Searched, search_access, search_advance};
use slot_words::word::word_of;

// Part 1: the access that comes next.
#[tactic(auto, unfolding(crate::specs::Put::exceeds, crate::specs::Put::put_access, crate::specs::Put::put_stage_access))]
pub fn put_access(put: Put, m: u32, reach: u32) -> WriterAccess
    ensures { result ≡ put_access m reach put }
{
    let point = put.point;
    let word = word_of(point, put.value);
    match put.stage {
        PutStage::Searching(search) => WriterAccess::Read(search_access(search, point, m)),
        PutStage::Scanning(index) => {
            WriterAccess::Read(ReadAccess::Slot(hash::position(m, point, index)))
        }
        PutStage::Found(place) => store_word(m, point, place.index, word),
        PutStage::Chosen(index) => {
            if index > reach {
                WriterAccess::StoreReach(index)
            } else {
                store_word(m, point, index, word)
            }
        }
    }
}

// Part 3: what follows from the reach, from the word read, or from the slot stored.
#[tactic(auto, unfolding(crate::specs::Put::put_advance, crate::specs::Put::put_searched, crate::specs::Put::put_stage_advance))]
pub fn put_advance(put: Put, k: u32, reach: u32, slot: u32, word: u64) -> Effect
    ensures { paper_effect result ≡ put_advance k reach slot put word }
{
    match put.stage {
        PutStage::Searching(search) => match search_advance(search, put.point, reach, word) {
            Searched::Going(search) => put_at(put, PutStage::Searching(search)),
            Searched::Answered(answer) => put_answered(put, answer),
        },
        PutStage::Scanning(index) => put_scanned(put, k, index, word),
        PutStage::Found(place) => {
            let index = place.index;
            ended(Update::Nothing, Ending::Placed(Spot { slot, index }))
        }
        PutStage::Chosen(index) => put_takes(put, reach, slot, index),
    }
}

// The put goes on at this stage.
#[tactic(auto, unfolding(crate::specs::Put::put_at))]
fn put_at(put: Put, stage: PutStage) -> Effect
    ensures { paper_effect result ≡ put_at put stage }
{
    underway(WriterWork::Putting(Put { stage, ..put }))
}

// What the search's answer leads to.
#[tactic(auto, unfolding(crate::specs::Put::put_answered))]
pub fn put_answered(put: Put, answer: Option<Place>) -> Effect
    ensures { paper_effect result ≡ put_answered put answer }
{
    let Some(place) = answer else {
        return put_at(put, PutStage::Scanning(1));
    };
    put_at(put, PutStage::Found(place))
}

// A position of the second search has been read.
#[tactic(auto, unfolding(crate::specs::Put::put_scanned))]
fn put_scanned(put: Put, k: u32, index: u32, word: u64) -> Effect
    ensures { paper_effect result ≡ put_scanned k put index word }
{
    if word == 0 {
        put_at(put, PutStage::Chosen(index))
    } else if index < k {
        put_at(put, PutStage::Scanning(index + 1))
    } else {
        ended(Update::Nothing, Ending::NoPerch)
    }
}

// The first empty position is taken: the reach first, where the index exceeds it.
#[tactic(auto, unfolding(crate::specs::Put::exceeds, crate::specs::Put::put_takes))]
fn put_takes(put: Put, reach: u32, slot: u32, index: u32) -> Effect
    ensures { paper_effect result ≡ put_takes reach slot put index }
{
    if reach < index {
        Effect {
            work: WriterWork::Putting(put),
            update: Update::Reach(index),
            progress: None,
        }
    } else {
        ended(Update::Counted(index), Ending::Placed(Spot { slot, index }))
    }
}
