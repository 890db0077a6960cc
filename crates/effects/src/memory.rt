// Part 2 of the writer's step: the one access to lent memory. The line that stores stands here, the one
// that reads in `search::access`.
ghost use Rattle.std.specs.Prelude.{◌≡◌, set};
ghost use Rattle.effects.specs.Memory.{store_word, slot_stored, access_read, slots_after};

use search::access::{ReadAccess, word_read};

// What a step of the writer touches.
#[derive(Clone, Copy)]
pub enum WriterAccess {
    Read(ReadAccess),
    // the reach stands in the record
    StoreReach(u32),
    StoreSlot(Store),
}

#[derive(Clone, Copy)]
pub struct Store {
    pub slot: u32,
    pub word: u64,
}

// The access that stores a word in a point's position of an index.
#[tactic(auto, unfolding(crate::specs::Memory::store_word))]
pub fn store_word(m: u32, point: u32, index: u32, word: u64) -> WriterAccess
    ensures { result ≡ store_word m point index word }
{
    let slot = hash::position(m, point, index);
    WriterAccess::StoreSlot(Store { slot, word })
}

// The slot that an access stores; 0 where it stores none.
#[tactic(auto, unfolding(crate::specs::Memory::slot_stored))]
pub fn slot_stored(access: WriterAccess) -> u32
    ensures { result ≡ slot_stored access }
{
    match access {
        WriterAccess::StoreSlot(store) => store.slot,
        _ => 0,
    }
}

// The word read; 0 of an access that stores.
#[tactic(auto, unfolding(crate::specs::Memory::access_read, crate::specs::Memory::slots_after))]
pub fn perform(slots: &mut [u64], access: WriterAccess) -> u64
    ensures { (result ≡ access_read slots.old access) × (slots.new ≡ slots_after slots.old access) }
{
    match access {
        WriterAccess::Read(read) => word_read(slots, read),
        WriterAccess::StoreReach(_) => 0,
        WriterAccess::StoreSlot(store) => {
            store_at(slots, store);
            0
        }
    }
}

// Stores the word; nothing where no slot is.
fn store_at(slots: &mut [u64], store: Store)
    ensures { slots.new ≡ set slots.old store.slot store.word }
{
    let at = store.slot as usize;
    if at < slots.len() {
        slots[at] = store.word;
    }
}
