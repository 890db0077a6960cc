// A whole lookup.
ghost use Rattle.std.specs.Prelude.{◌≡◌};
ghost use Rattle.answers.specs.Answers.{paper_whole, outcome};
ghost use Rattle.whole_operations.specs.Whole.{whole_lookup};

use crate::searching::whole_search;
use answers::Completion;
use reader_starts::judge_lookup;
use reader_step::lookup_ending;
use record::Record;
use refusal::Refusal;

// Looks a point up, from the start to the end, which leaves the record as it is.
#[tactic(auto, unfolding(reader_starts::specs::Starts::start_lookup, reader_starts::specs::Starts::start_reader, crate::specs::Whole::whole_lookup))]
pub fn whole_lookup(
    panel: Record,
    slots: &[u64],
    reader: u32,
    point: u32,
) -> Result<Completion, Refusal>
    ensures { outcome panel slots.now (paper_whole result) ≡ whole_lookup panel slots.now reader point }
{
    judge_lookup(panel, slots.len(), reader, point)?;
    let found = whole_search(slots, panel.m, point, panel.reach);
    Ok(Completion {
        ending: lookup_ending(found.answer),
        steps: found.steps,
    })
}
