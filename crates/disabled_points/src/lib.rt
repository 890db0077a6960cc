// What the panel says of disabled points, taken from the slots as they are.
#![tactic(auto)]

ghost use Rattle.std.specs.Prelude.{◌≡◌};
ghost use Rattle.answers.specs.Answers.{paper_total, paper_display};
ghost use Rattle.disabled_points.specs.Disabled.{holds_disabled, disabled_points, Lowest, disabled_total, MayDisplay};

use record::Record;
use record_ranges::is_in_range;
use refusal::Refusal;
use slot_words::points::{is_disabled, is_valid_point};
use slot_words::word::{point_of, value_of};

// The slot holds a valid point that is disabled.
#[tactic(auto, unfolding(crate::specs::Disabled::holds_disabled, conditions::specs::Conditions::both))]
fn holds_disabled(word: u64) -> bool
    ensures { result ≡ holds_disabled word }
{
    is_valid_point(point_of(word)) && is_disabled(value_of(word))
}

// The lowest disabled address, if there is one.
#[tactic(auto, using(crate::proofs::DisplayLaws::lowest_found))]
fn lowest_disabled(slots: &[u64]) -> Option<u32>
    ensures { Lowest (disabled_points slots.now) result }
{
    let disabled = slots.iter().copied().filter(|word| holds_disabled(*word));
    disabled.map(point_of).min()
}

// How many slots hold a valid point that is disabled.
#[tactic(auto, unfolding(crate::specs::Disabled::disabled_total))]
pub fn disabled_total(panel: Record, slots: &[u64]) -> Result<u32, Refusal>
    ensures { paper_total result ≡ disabled_total panel slots.now }
{
    if !is_in_range(panel, slots.len()) {
        return Err(Refusal::Misfit);
    }
    Ok(slots.iter().filter(|word| holds_disabled(**word)).count() as u32)
}

// A disabled point for the one-line display. Which of them is left free; this shows the lowest.
#[tactic(auto, using(crate::proofs::DisplayLaws::lowest_shown))]
pub fn disabled_point(panel: Record, slots: &[u64]) -> Result<u32, Refusal>
    ensures { MayDisplay panel slots.now (paper_display result) }
{
    if !is_in_range(panel, slots.len()) {
        return Err(Refusal::Misfit);
    }
    lowest_disabled(slots).ok_or(Refusal::Unknown)
}
