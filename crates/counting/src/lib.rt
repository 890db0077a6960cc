// Counts that stay in their range (`one_more`), and the steps that an operation underway has made, which are
// counted in its work (`steps`).
#![tactic(auto)]

pub mod steps;

ghost use Rattle.std.specs.Prelude.{◌≡◌};
ghost use Rattle.counting.specs.Counting.{one_more};

// A count with one more. On a record that no history leads to, one that would leave its range stays at its
// end.
pub fn one_more(most: u32, count: u32) -> u32
    ensures { result ≡ one_more most count }
{
    count.saturating_add(1).min(most)
}
