// Part 2 of a step: the one line that reads lent memory.
ghost use Rattle.std.specs.Prelude.{◌≡◌};
ghost use Rattle.search.specs.Access.{word_read};

// What a reading step touches.
#[derive(Clone, Copy)]
pub enum ReadAccess {
    // a party without work makes no access
    Nothing,
    // the reach stands in the record
    Reach,
    Slot(u32),
}

// The word read; 0 where no slot is.
#[tactic(auto, unfolding(crate::specs::Access::word_read))]
pub fn word_read(slots: &[u64], access: ReadAccess) -> u64
    ensures { result ≡ word_read slots.now access }
{
    match access {
        ReadAccess::Nothing | ReadAccess::Reach => 0,
        ReadAccess::Slot(slot) => slots.get(slot as usize).copied().unwrap_or(0),
    }
}
