// A fresh panel: the slots emptied, and the record with which it begins.
#![tactic(auto)]

ghost use Rattle.std.specs.Prelude.{◌≡◌};
ghost use Rattle.answers.specs.Answers.{paper_fresh, outcome};
ghost use Rattle.fresh_panel.specs.FreshPanel.{make_fresh};

use answers::Outcome;
use record::Record;
use record::parts::fresh_record;
use record_ranges::are_sizes_in_range;
use refusal::Refusal;

// Empties the slots and gives the record of a panel of m slots and k functions. Refused, it leaves the
// slots and gives the record of zeros, with which every other call is refused too.
#[tactic(auto, unfolding(crate::specs::FreshPanel::make_fresh))]
pub fn fresh(slots: &mut [u64], m: u32, k: u32) -> Outcome<()>
    ensures { outcome result.panel slots.new (paper_fresh result.answer) ≡ make_fresh m k slots.old }
{
    if !are_sizes_in_range(m, k, slots.len()) {
        return Outcome {
            panel: fresh_record(0, 0),
            answer: Err(Refusal::Misfit),
        };
    }
    slots.fill(0);
    Outcome {
        panel: fresh_record(m, k),
        answer: Ok(()),
    }
}
