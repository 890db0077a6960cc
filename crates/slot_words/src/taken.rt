// How many slots are taken.
ghost use Rattle.std.specs.Prelude.{◌≡◌};
ghost use Rattle.slot_words.specs.Taken.{taken_slots};

// A loop, which the compiler makes several slots at a time of, as it does not of `filter` and `count`.
pub fn taken_slots(slots: &[u64]) -> usize
    ensures { result ≡ taken_slots slots.now }
{
    let mut count = 0;
    for word in slots {
        if *word != 0 {
            count += 1;
        }
    }
    count
}
