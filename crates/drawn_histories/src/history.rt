// A history of drawn calls. Each call's answer, and the slots and the record after it, go into a digest,
// which a line shows after each hundred calls.
use crate::commands::drawn_command;
use crate::digest::{Digest, Digested};
use crate::drawn_calls::drawn_call;
use crate::frames::{drawn_length, drawn_map, frame_of};
use crate::numbers::draw;
use crate::ways::Way;
use record::Record;
use slot_words::taken::taken_slots;
use std::io;

// How far a history is.
#[derive(Drop)]
pub(crate) struct History<'a> {
    pub panel: Record,
    pub slots: &'a mut [u64],
    // how many points its calls are about
    pub points: u32,
    // the generator's last value
    pub drawn: u32,
}

impl History<'_> {
    // Five thousand calls, with a digest of their own for each hundred.
    pub(crate) fn run<W: Way>(&mut self, rt: &impl Print) -> io::Result<()> {
        for hundreds in 1..=50u32 {
            let digest = self.hundred::<W>();
            let made = hundreds * 100;
            let reach = self.panel.reach;
            let taken = taken_slots(self.slots);
            println!(rt; "calls {made}: digest {digest} reach {reach} taken {taken}")?;
        }
        Ok(())
    }

    fn hundred<W: Way>(&mut self) -> Digest {
        let mut digest = Digest::new();
        for _ in 0..100 {
            self.call::<W>(&mut digest);
        }
        digest
    }

    // One call. A frame is lent to each, and only a command looks at it.
    fn call<W: Way>(&mut self, digest: &mut Digest) {
        let draws = draw(self.drawn);
        let call = drawn_call(draws, self.points);
        let sent = drawn_command(self.panel, draws, self.points);
        let frame = frame_of(sent, drawn_map(draws.rest));
        let length = drawn_length(draws.which);
        let left = W::carry_out(self.panel, self.slots, call, &frame[..length]);
        self.panel = left.panel;
        self.drawn = draws.rest;
        left.answer.add_to(digest);
        for word in self.slots.iter() {
            digest.add_word(*word);
        }
        left.panel.add_to(digest);
    }
}
