// Document 01's plain list as code, for a program that keeps it beside the slots and compares the two.
// A new row goes behind the others, so that the list reads from the last row down.
#![tactic(auto)]

ghost use Rattle.std.specs.Prelude.{◌≡◌, ◌==◌, []};
ghost use Rattle.slot_words.specs.Word.{point_of};
ghost use Rattle.plain_rows.specs.Rows.{counted, in_array, listed, held};
ghost use Rattle.plain_rows.specs.Fed.{operation_of, fed_rows, Feeds};

mod indices;
mod operations;
mod search;

use answers::{Completion, Ending};
use operations::carry_out;
use refusal::Refusal;
use slot_words::word::point_of;

// An operation with its arguments, as the list is fed.
#[derive(Clone, Copy)]
pub enum Operation {
    Put { point: u32, value: u32 },
    Change { point: u32, keep: u32, flip: u32 },
    Removal { point: u32 },
}

// A row: its point and value as a slot's word has them, and its place.
#[derive(Clone, Copy)]
pub struct Row {
    pub word: u64,
    pub place: u32,
}

impl Row {
    // Whether the row is the point's.
    pub(crate) fn is_of(self, point: u32) -> bool
        ensures { result ≡ (point_of self.word == point) }
    {
        point_of(self.word) == point
    }
}

// Feeds an operation to the list whose rows are the first `count` of the entries lent, for a table of m slots
// and k functions. If there is no room for the rows before or after, nothing is altered and the answer is
// refusal 1. A table's own list never has more than m rows, so m entries are enough (proofs/RoomLaws.antt).
pub fn feed(
    rows: &mut [Row],
    count: &mut usize,
    m: u32,
    k: u32,
    operation: Option<Operation>,
) -> Result<Completion, Refusal>
    ensures { Feeds (counted rows.old count.old) (counted rows.new count.new) result (fed_rows m k (operation_of operation) (counted rows.old count.old)) }
{
    let before = *count;
    if rows.len() < before {
        return Err(Refusal::Misfit);
    }
    let ending = match operation {
        None => Ending::Unknown,
        Some(operation) => carry_out(rows, count, m, k, operation)?,
    };
    Ok(Completion { ending, steps: 0 })
}

// The list in an array of its own: its rows are the first `count`, the newest last. That the array holds
// them is no part of the type, since `feed` has an answer for a list that it does not hold.
#[derive(Clone, Copy)]
pub struct Rows<const N: usize> {
    pub rows: [Row; N],
    pub count: usize,
}

impl<const N: usize> Rows<N> {
    // A list without a row.
    #[tactic(auto, unfolding(crate::specs::Rows::rows_below))]
    pub fn new() -> Self
        ensures { listed (in_array result) ≡ [] }
    {
        Rows {
            rows: [Row { word: 0, place: 0 }; N],
            count: 0,
        }
    }

    // The rows that the list has, the newest last.
    pub fn held(&self) -> &[Row]
        ensures { result.now ≡ held (in_array self.now) }
    {
        &self.rows[..self.count.min(N)]
    }

    // Feeds an operation to the list, as `feed` of the entries does.
    pub fn feed(
        &mut self,
        m: u32,
        k: u32,
        operation: Option<Operation>,
    ) -> Result<Completion, Refusal>
        ensures { Feeds (in_array self.old) (in_array self.new) result (fed_rows m k (operation_of operation) (in_array self.old)) }
    {
        feed(&mut self.rows, &mut self.count, m, k, operation)
    }
}
