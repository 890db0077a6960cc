// The plain list's rows beside the slots.
#![tactic(auto)]

ghost use Rattle.std.specs.Prelude.{ℕ, ◌<◌, false, ◌≡◌, length, get_or};
ghost use Rattle.plain_list.specs.PlainList.{is_place, Each, AtPlace, Shows};
ghost use Rattle.plain_rows.specs.Rows.{row_of, rows_of};
ghost use Rattle.rows_shown.specs.Verdict.{word_listed, Decides};

use plain_rows::Row;

// "the slots are 0 except for each row's word at its place"
pub fn do_show(slots: &[u64], rows: &[Row]) -> bool
    ensures { Decides (Shows (length slots.now) slots.now (rows_of rows.now)) result }
{
    do_rows_stand(slots, rows) && are_others_empty(slots, rows)
}

// Each row's word stands at its place.
fn do_rows_stand(slots: &[u64], rows: &[Row]) -> bool
    ensures { Decides (Each (AtPlace (length slots.now) slots.now) (rows_of rows.now)) result }
{
    rows.iter().all(|row| stands(slots, *row))
}

fn stands(slots: &[u64], row: Row) -> bool
    ensures { Decides (AtPlace (length slots.now) slots.now (row_of row)) result }
{
    let place = row.place as usize;
    place < slots.len() && slots[place] == row.word
}

// Each slot that is no row's place is 0.
fn are_others_empty(slots: &[u64], rows: &[Row]) -> bool
    ensures { Decides ((slot : ℕ) → slot < length slots.now → is_place slot (rows_of rows.now) ≡ false → get_or slots.now slot 0 ≡ 0) result }
{
    slots
        .iter()
        .enumerate()
        .all(|(slot, word)| is_place(rows, slot) || *word == 0)
}

// Some row's place.
fn is_place(rows: &[Row], place: usize) -> bool
    ensures { result ≡ is_place place (rows_of rows.now) }
{
    rows.iter().any(|row| row.place as usize == place)
}

// The word of the latest row with that place; 0 if there is none.
pub fn word_listed(rows: &[Row], place: usize) -> u64
    ensures { result ≡ word_listed place (rows_of rows.now) }
{
    rows.iter()
        .rev()
        .copied()
        .find(|row| row.place as usize == place)
        .map_or(0, |row| row.word)
}
