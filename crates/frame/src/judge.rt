// The ranges of a frame's fields, judged in bit order.
ghost use Rattle.std.specs.Prelude.{◌≡◌, ℕ};
ghost use Rattle.conditions.specs.Conditions.{both, outside};
ghost use Rattle.refusal.specs.Judging.{refuse_if};
ghost use Rattle.refusal.specs.Refusals.{number_of, paper_judged};
ghost use Rattle.frame.specs.Frames.{judged};
ghost use Rattle.frame.specs.Layouts.{present, places_of};

use crate::Fields;
use crate::layout::Layout;
use conditions::{both_hold, is_outside};
use refusal::Refusal;

// Refuses a number outside its range, where the layout has the field.
#[tactic(auto, unfolding(refusal::specs::Judging::refuse_if))]
fn judge_field(at: u32, low: u32, number: u32, high: u32, refusal: Refusal) -> Result<(), Refusal>
    ensures { paper_judged result ≡ refuse_if (both (present at) (outside low number high)) (number_of refusal) 0 }
{
    if both_hold(at != 0, is_outside(low, number, high)) {
        Err(refusal)
    } else {
        Ok(())
    }
}

pub(crate) fn judge(l: Layout, f: Fields) -> Result<(), Refusal>
    ensures { paper_judged result ≡ judged (λ (i : ℕ). present (places_of l i)) f }
{
    judge_field(l.station, 1, f.station, 32, Refusal::Station)?;
    judge_field(l.number, 1, f.number, 16777215, Refusal::Turn)?;
    judge_field(l.point, 1, f.point, 2147483646, Refusal::Address)?;
    judge_field(l.action, 0, f.action, 2, Refusal::Code)?;
    judge_field(l.refusal, 1, f.refusal, 14, Refusal::Code)
}
