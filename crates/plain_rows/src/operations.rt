// What each operation makes of the rows, and what the list answers. The caller has judged that the
// entries hold the rows.
ghost use Rattle.std.specs.Prelude.{◌≡◌, ◌≤◌, Some, length};
ghost use Rattle.answers.specs.Answers.{placed as placed_at, paper_ending};
ghost use Rattle.plain_list.specs.PlainList.{index_of, feed, put_row, change_row, remove_row};
ghost use Rattle.plain_rows.specs.Rows.{rows_of, counted, held};
ghost use Rattle.plain_rows.specs.Fed.{operation_of, Tells, Puts};

use crate::indices::{first_free, index_of, largest_index};
use crate::search::{entry_of, with_value, without};
use crate::{Operation, Row};
use answers::{Ending, Spot};
use hash::position;
use refusal::Refusal;
use slot_words::word::{value_of, word_of};

// The point has its row at the place: the place with its index.
fn placed(m: u32, k: u32, point: u32, place: u32) -> Ending
    ensures { paper_ending result ≡ placed_at place (index_of m k point place) }
{
    Ending::Placed(Spot {
        slot: place,
        index: index_of(m, k, point, place),
    })
}

#[tactic(auto, unfolding(plain_list::specs::PlainList::feed))]
pub(crate) fn carry_out(
    rows: &mut [Row],
    count: &mut usize,
    m: u32,
    k: u32,
    operation: Operation,
) -> Result<Ending, Refusal>
    requires { count.old ≤ length rows.old }
    ensures { Puts (counted rows.old count.old) (counted rows.new count.new) result (feed m k (operation_of (Some operation)) (rows_of (held (counted rows.old count.old)))) }
{
    match operation {
        Operation::Put { point, value } => put(rows, count, m, k, point, value),
        Operation::Change { point, keep, flip } => Ok(change(rows, count, point, keep, flip)),
        Operation::Removal { point } => Ok(remove(rows, count, m, k, point)),
    }
}

fn put(
    rows: &mut [Row],
    count: &mut usize,
    m: u32,
    k: u32,
    point: u32,
    value: u32,
) -> Result<Ending, Refusal>
    requires { count.old ≤ length rows.old }
    ensures { Puts (counted rows.old count.old) (counted rows.new count.new) result (put_row m k point value (rows_of (held (counted rows.old count.old)))) }
{
    let before = *count;
    if let Some(row) = entry_of(&rows[..before], point) {
        with_value(&mut rows[..before], point, value);
        return Ok(placed(m, k, point, row.place));
    }
    let index = first_free(&rows[..before], m, k, point);
    if index == 0 {
        return Ok(Ending::NoPerch);
    }
    if before == rows.len() {
        return Err(Refusal::Misfit);
    }
    let place = position(m, point, index);
    rows[before] = Row {
        word: word_of(point, value),
        place,
    };
    *count = before + 1;
    Ok(placed(m, k, point, place))
}

fn change(rows: &mut [Row], count: &mut usize, point: u32, keep: u32, flip: u32) -> Ending
    requires { count.old ≤ length rows.old }
    ensures { Tells (counted rows.old count.old) (counted rows.new count.new) result (change_row point keep flip (rows_of (held (counted rows.old count.old)))) }
{
    let before = *count;
    let Some(row) = entry_of(&rows[..before], point) else {
        return Ending::Unknown;
    };
    let new = (value_of(row.word) & keep) ^ flip;
    with_value(&mut rows[..before], point, new);
    Ending::Changed(new)
}

fn remove(rows: &mut [Row], count: &mut usize, m: u32, k: u32, point: u32) -> Ending
    requires { count.old ≤ length rows.old }
    ensures { Tells (counted rows.old count.old) (counted rows.new count.new) result (remove_row m k point (rows_of (held (counted rows.old count.old)))) }
{
    let before = *count;
    let Some(_) = entry_of(&rows[..before], point) else {
        return Ending::Unknown;
    };
    let left = without(&mut rows[..before], point);
    *count = left;
    Ending::Removed(largest_index(&rows[..left], m, k))
}
