// Lines carried out, and what they print.
use crate::line::Line;
use crate::reading::Order;
use crate::showing::Shown;
use crate::texts::{Asked, Said};
use calls::Call;
use fresh_panel::fresh;
use panel_and_list::PanelState;
use std::io;
use std::io::Write;

// The slots of the largest panel. A row's place is a slot of its own, so the list has no more rows.
pub(crate) const SLOTS: usize = 4096;

#[derive(Drop)]
pub(crate) struct Run<'a> {
    // how many lines there were
    number: u64,
    // the panel with its list, once a panel was made
    state: Option<PanelState<SLOTS>>,
    slots: &'a mut [u64],
}

impl<'a> Run<'a> {
    // No panel, and no line.
    pub(crate) fn new(slots: &'a mut [u64]) -> Self {
        Run {
            number: 0,
            state: None,
            slots,
        }
    }

    pub(crate) fn carry_out<W: Write>(&mut self, line: &Line, out: &mut W) -> io::Result<()> {
        self.number = self.number.wrapping_add(1);
        let mut frame = [0u8; 32];
        match line.order(&mut frame) {
            Ok(None) => Ok(()),
            Ok(Some(Order::Panel { m, k })) => self.make_panel(m, k, out),
            Ok(Some(Order::Call(call, frame))) => self.call(call, frame, out),
            Ok(Some(Order::Show)) => self.show(out),
            Err(fault) => writeln!(out, "line {}: cannot be read: {fault}", self.number),
        }
    }

    // A new panel in place of the one before; refused, it leaves that one.
    fn make_panel<W: Write>(&mut self, m: u32, k: u32, out: &mut W) -> io::Result<()> {
        let lent = self.slots.len().min(m as usize);
        let made = fresh(&mut self.slots[..lent], m, k);
        match made.answer {
            Ok(()) => {
                match &mut self.state {
                    Some(state) => state.open_anew(made.panel),
                    None => self.state = Some(PanelState::opened(made.panel)),
                }
                writeln!(out, "{} panel {m} {k}: made", self.number)
            }
            Err(refusal) => writeln!(out, "{} panel {m} {k}: refused: {refusal}", self.number),
        }
    }

    fn call<W: Write>(&mut self, call: Call, frame: &[u8], out: &mut W) -> io::Result<()> {
        let Some(state) = &mut self.state else {
            return self.panel_missing(out);
        };
        let lent = self.slots.len().min(state.panel.m as usize);
        let answer = state.carry_out(&mut self.slots[..lent], call, frame);
        let asked = Asked { call, frame };
        match answer {
            Ok(given) => writeln!(out, "{} {asked}: {}", self.number, Said(given)),
            Err(refusal) => writeln!(out, "{} {asked}: refused: {refusal}", self.number),
        }
    }

    fn show<W: Write>(&self, out: &mut W) -> io::Result<()> {
        let Some(state) = &self.state else {
            return self.panel_missing(out);
        };
        let lent = self.slots.len().min(state.panel.m as usize);
        let shown = Shown {
            state,
            slots: &self.slots[..lent],
        };
        writeln!(out, "{} show\n{shown}", self.number)
    }

    fn panel_missing<W: Write>(&self, out: &mut W) -> io::Result<()> {
        writeln!(out, "line {}: panel missing", self.number)
    }
}
