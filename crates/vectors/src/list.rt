// The plain list beside slots that do not show it, and one without room.
use crate::shown::Words;
use calls::Call;
use panel_and_list::PanelState;
use plain_rows::Row;
use record::parts::fresh_record;
use rows_shown::{do_show, word_listed};
use slot_words::word::word_of;
use std::io;

pub(crate) fn run(rt: &impl Print) -> io::Result<()> {
    shown(rt)?;
    no_room(rt)
}

// Points 1 and 9 in slots 0 and 2, and a list of these two rows.
fn shown(rt: &impl Print) -> io::Result<()> {
    let mut slots = [word_of(1, 5), 0, word_of(9, 6), 0];
    beside_rows(rt, &slots)?;
    slots[2] = word_of(9, 7);
    beside_rows(rt, &slots)?;
    slots[2] = word_of(9, 6);
    slots[3] = word_of(17, 7);
    beside_rows(rt, &slots)
}

// The list with none, one and both of its rows.
fn beside_rows(rt: &impl Print, slots: &[u64]) -> io::Result<()> {
    let rows = [
        Row {
            word: word_of(1, 5),
            place: 0,
        },
        Row {
            word: word_of(9, 6),
            place: 2,
        },
    ];
    for count in 0..=2 {
        let listed = &rows[..count];
        let shown = if do_show(slots, listed) { "yes" } else { "no" };
        let first = word_listed(listed, 0);
        let third = word_listed(listed, 2);
        println!(rt; "shown: {shown} {first} {third}")?;
    }
    Ok(())
}

// A put of one point on a panel of one slot, beside a list without room: nothing is fed.
fn no_room(rt: &impl Print) -> io::Result<()> {
    let mut slots = [0u64; 1];
    let mut state = PanelState::<0>::opened(fresh_record(1, 1));
    for call in [
        Call::StartPut { point: 1, value: 5 },
        Call::StepWriter,
        Call::StepWriter,
        Call::StepWriter,
        Call::StepWriter,
    ] {
        let _ = state.carry_out(&mut slots, call, &[]);
        println!(rt; "rows {} slots{}", state.list.count, Words(&slots))?;
    }
    Ok(())
}
