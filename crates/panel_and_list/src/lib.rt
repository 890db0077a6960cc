// A panel with the plain list of the claim beside it: calls carried out on both.
#![tactic(auto)]

ghost use Rattle.std.specs.Prelude.{◌≡◌};
ghost use Rattle.panel_and_list.specs.Kept.{opened_state, Opened, CallOnBoth, apart};

mod answer_kinds;
mod kept_list;

use answers::{Given, Outcome};
use calls::{Call, apply};
use kept_list::{feed_list, feeds_now};
use plain_rows::{Operation, Row, Rows};
use record::Record;
use refusal::Refusal;

// What is noted of the writer's operation underway; where there is none, nothing is asked or fed.
#[derive(Clone, Copy, Default)]
pub struct Notes {
    // the arguments of the call that started it
    pub asked: Option<Operation>,
    // it has fed the list
    pub fed: bool,
}

// The slots and the list's entries are lent beside it.
#[derive(Clone, Copy)]
pub struct LentState {
    pub panel: Record,
    pub notes: Notes,
    // how many rows the list has
    pub count: usize,
}

// A panel of which nothing was asked yet: the list has no row.
#[tactic(auto, unfolding(crate::specs::Kept::opened_state))]
pub fn opened(panel: Record) -> LentState
    ensures { result ≡ opened_state panel }
{
    LentState {
        panel,
        notes: Notes::default(),
        count: 0,
    }
}

// Carries a call out, and feeds the list if the call feeds it: whatever list of calls led here, what is
// kept is the plain list of the claim about all of them (`kept` in proofs/KeptLaws.antt).
pub fn carry_out(
    state: &mut LentState,
    slots: &mut [u64],
    rows: &mut [Row],
    call: Call,
    frame: &[u8],
) -> Result<Given, Refusal>
    ensures { CallOnBoth state.old slots.old rows.old call frame.now state.new result slots.new rows.new }
{
    let done = apply(state.panel, slots, call, frame);
    let feeds = feeds_now(&state.panel, state.notes.fed, done.answer, call);
    feed_list(
        rows,
        &mut state.count,
        &state.panel,
        state.notes.asked,
        feeds,
    );
    state.notes = state.notes.after(feeds, done.answer, call, frame);
    state.panel = done.panel;
    done.answer
}

// The slots are lent beside it, and the list is in an array of its own.
#[derive(Clone, Copy)]
pub struct PanelState<const N: usize> {
    pub panel: Record,
    pub notes: Notes,
    pub list: Rows<N>,
}

impl<const N: usize> PanelState<N> {
    // As `opened`, with a list that has no row.
    pub fn opened(panel: Record) -> Self
        ensures { Opened panel (apart result) result.list.rows }
    {
        let state = opened(panel);
        PanelState {
            panel: state.panel,
            notes: state.notes,
            list: Rows::new(),
        }
    }

    // The same in place of the panel that was there: a list is without a row whatever its entries hold, so that
    // none of them is written.
    pub fn open_anew(&mut self, panel: Record)
        ensures { Opened panel (apart self.new) self.new.list.rows }
    {
        let again = opened(panel);
        self.panel = again.panel;
        self.notes = again.notes;
        self.list.count = again.count;
    }

    // As `carry_out` does it, with the list's own entries.
    pub fn carry_out(
        &mut self,
        slots: &mut [u64],
        call: Call,
        frame: &[u8],
    ) -> Result<Given, Refusal>
        ensures { CallOnBoth (apart self.old) slots.old self.old.list.rows call frame.now (apart self.new) result slots.new self.new.list.rows }
    {
        let mut state = LentState {
            panel: self.panel,
            notes: self.notes,
            count: self.list.count,
        };
        let answer = carry_out(&mut state, slots, &mut self.list.rows, call, frame);
        self.panel = state.panel;
        self.notes = state.notes;
        self.list.count = state.count;
        answer
    }
}
