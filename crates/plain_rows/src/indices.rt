// Which of a point's positions 1 to k: a row's index, the first free one, the largest of all rows.
ghost use Rattle.std.specs.Prelude.{ℕ, ◌≤◌, ◌<◌, ◌^◌, Bool, ◌≡◌};
ghost use Rattle.plain_list.specs.PlainList.{lowest, index_of, first_free, largest_index};
ghost use Rattle.plain_rows.specs.Rows.{rows_of};

use crate::Row;
use crate::search::is_place;
use hash::position;
use slot_words::word::point_of;

// The lowest of 1 to k that passes the test, or 0.
fn lowest<F: Fn(u32) -> bool>(k: u32, test: F) -> u32
    requires { F.IsAlwaysCallable test }
    ensures { (passes : ℕ → Bool) → ((i : ℕ) (b : Bool) → i < 2 ^ 32 → F.post test i b → b ≡ passes i) → result ≡ lowest passes k }
{
    for passed in 0..k {
        if test(passed + 1) {
            return passed + 1;
        }
    }
    0
}

// The lowest of 1 to k whose position is the place, or 0.
#[tactic(auto, unfolding(plain_list::specs::PlainList::index_of))]
pub(crate) fn index_of(m: u32, k: u32, point: u32, place: u32) -> u32
    ensures { result ≡ index_of m k point place }
{
    lowest(k, |index| position(m, point, index) == place)
}

// The lowest of 1 to k whose position is no row's place, or 0.
#[tactic(auto, unfolding(plain_list::specs::PlainList::first_free))]
pub(crate) fn first_free(rows: &[Row], m: u32, k: u32, point: u32) -> u32
    ensures { result ≡ first_free m k point (rows_of rows.now) }
{
    lowest(k, |index| !is_place(rows, position(m, point, index)))
}

// The largest index of a row, or 0.
pub(crate) fn largest_index(rows: &[Row], m: u32, k: u32) -> u32
    ensures { result ≡ largest_index m k (rows_of rows.now) }
{
    rows.iter()
        .map(|row| index_of(m, k, point_of(row.word), row.place))
        .max()
        .unwrap_or(0)
}
