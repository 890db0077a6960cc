// The digits with which a field begins, in a loop of their own: most of the input is such digits.
ghost use Rattle.std.specs.Prelude.{◌≡◌, ◌≤◌, length};
ghost use Rattle.std.proofs.Math.Seq.{slice};
ghost use Rattle.line.specs.LineParts.{run_of};

use crate::field::Field;

// A field, and the place behind what it was read from.
#[derive(Clone, Copy)]
pub(crate) struct Run {
    pub field: Field,
    pub next: usize,
}

// An empty field goes on with the digits from `from` on, ten at most: what so many say cannot wrap, and
// is judged once, behind the loop.
#[tactic(auto, unfolding(crate::specs::Grammar::digit, conditions::specs::Conditions::within, conditions::specs::Conditions::both))]
pub(crate) fn digits_run(bytes: &[u8], from: usize, to: usize) -> Run
    requires { (from ≤ to) × (to ≤ length bytes.now) }
    ensures { result ≡ run_of from (slice from to bytes.now) }
{
    let stop = from + (to - from).min(10);
    let mut value = 0;
    let mut next = from;
    for byte in &bytes[from..stop] {
        if !byte.is_ascii_digit() {
            break;
        }
        value = value * 10 + u64::from(*byte - b'0');
        next += 1;
    }
    Run {
        field: Field::of_digits((next - from) as u32, value),
        next,
    }
}
