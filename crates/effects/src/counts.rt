// The counts of indices. A count stays in its range: on a record that no history leads to, one that
// would leave it stays at its end.
ghost use Rattle.std.specs.Prelude.{◌≡◌};
ghost use Rattle.effects.specs.Counts.{counted, uncounted, largest_counted};

use counting::one_more;
use record::Record;
use record::parts::{count_in, count_of, with_count};

// One point more uses the index.
#[tactic(auto, unfolding(crate::specs::Counts::counted))]
pub(crate) fn with_counted(panel: Record, index: u32) -> Record
    ensures { result ≡ counted panel index }
{
    with_count(panel, index, one_more(panel.m, count_of(panel, index)))
}

// One point less uses the index.
#[tactic(auto, unfolding(crate::specs::Counts::uncounted))]
pub(crate) fn with_uncounted(panel: Record, index: u32) -> Record
    ensures { result ≡ uncounted panel index }
{
    with_count(panel, index, count_of(panel, index).saturating_sub(1))
}

// The largest index of 1 to k that is counted, or 0.
#[tactic(auto, using(crate::proofs::CountLaws::largest_here, crate::proofs::CountLaws::largest_below), unfolding(crate::specs::Counts::largest_counted, crate::specs::Counts::largest_up_to))]
pub fn largest_counted(k: u32, counts: &[u32; 64]) -> u32
    ensures { result ≡ largest_counted k counts.now }
{
    for index in (1..=k).rev() {
        if count_in(counts, index) != 0 {
            return index;
        }
    }
    0
}
