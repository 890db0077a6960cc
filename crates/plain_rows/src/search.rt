// The rows that a list has: what is read of them, and how they change.
ghost use Rattle.std.specs.Prelude.{◌≡◌};
ghost use Rattle.plain_list.specs.PlainList.{entry_of, is_place, with_value};
ghost use Rattle.plain_rows.specs.Rows.{rows_of, entry_read, Removes};

use crate::Row;
use slot_words::word::word_of;

// The point's row. If there are several, the newest, which comes first in the list.
pub(crate) fn entry_of(rows: &[Row], point: u32) -> Option<Row>
    ensures { entry_read result ≡ entry_of point (rows_of rows.now) }
{
    rows.iter().rev().copied().find(|row| row.is_of(point))
}

// Whether the place is some row's.
pub(crate) fn is_place(rows: &[Row], place: u32) -> bool
    ensures { result ≡ is_place place (rows_of rows.now) }
{
    rows.iter().any(|row| row.place == place)
}

// The point's rows get the value: all of them, since nothing is required of the rows.
pub(crate) fn with_value(rows: &mut [Row], point: u32, value: u32)
    ensures { rows_of rows.new ≡ with_value point value (rows_of rows.old) }
{
    for row in rows.iter_mut() {
        if row.is_of(point) {
            row.word = word_of(point, value);
        }
    }
}

// The point's rows go, and those behind move down in their order. Gives the number of rows left. It
// stores below that number only, so that nothing is left open from there on.
pub(crate) fn without(rows: &mut [Row], point: u32) -> usize
    ensures { Removes rows.old rows.new result point }
{
    let mut left = 0;
    for i in 0..rows.len() {
        let row = rows[i];
        if !row.is_of(point) {
            rows[left] = row;
            left += 1;
        }
    }
    left
}
