// `show`: the slots with the plain list beside them, the reach and the place in the circle.
use crate::run::SLOTS;
use crate::texts::Stored;
use panel_and_list::PanelState;
use rows_shown::{do_show, word_listed};
use std::fmt;

#[derive(Clone, Copy)]
pub(crate) struct Shown<'a> {
    pub state: &'a PanelState<SLOTS>,
    pub slots: &'a [u64],
}

impl Shown<'_> {
    // A line for each slot that holds a word or is some row's place, and one with the number of the others.
    fn slots<W: fmt::Write>(&self, f: &mut fmt::Formatter<W>) -> fmt::Result {
        let rows = self.state.list.held();
        let mut empty = 0u64;
        for (slot, word) in self.slots.iter().enumerate() {
            let row = word_listed(rows, slot);
            if *word == 0 && row == 0 {
                empty = empty.wrapping_add(1);
                continue;
            }
            let held = Stored {
                word: *word,
                none: "empty",
            };
            let listed = Stored {
                word: row,
                none: "no row",
            };
            writeln!(f, "  slot {slot}: {held} | list: {listed}")?;
        }
        writeln!(f, "  empty slots: {empty}")
    }
}

impl fmt::Display for Shown<'_> {
    fn fmt<W: fmt::Write>(&self, f: &mut fmt::Formatter<W>) -> fmt::Result {
        self.slots(f)?;
        writeln!(f, "  reach {}", self.state.panel.reach)?;
        writeln!(f, "  place {}", self.state.panel.place)?;
        f.write_str(if do_show(self.slots, self.state.list.held()) {
            "  the slots show the plain list"
        } else {
            "  DIFFERENT: the slots do not show the plain list"
        })
    }
}
