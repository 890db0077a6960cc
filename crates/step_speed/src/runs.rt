// Runs of calls that are all carried out. A run begins with the same record each time; the writer's
// puts a point, changes its value and removes it, so the slots are as before.
use crate::panels::{POINT, all_at_work, idle_panel, one_at_work, readers_at_work};
use crate::sums::Worth;
use crate::ways::Way;
use record::Record;

// What is asked for.
#[derive(Clone, Copy)]
pub(crate) enum Work {
    // steps of all readers, one after the other
    ReadersSteps,
    WritersSteps,
    // a lookup of each reader in turn
    Lookups,
    // turns, with all parties at work
    Turns,
    // turns, with one reader at work
    OneReadersTurns,
    // that reader's steps
    OneReadersSteps,
}

impl From<u8> for Work {
    fn from(letter: u8) -> Self {
        match letter {
            b'W' => Work::WritersSteps,
            b'L' => Work::Lookups,
            b'T' => Work::Turns,
            b'O' => Work::OneReadersTurns,
            b'S' => Work::OneReadersSteps,
            _ => Work::ReadersSteps,
        }
    }
}

// The calls made, and the sum of what they answered.
#[derive(Clone, Copy)]
pub(crate) struct Tally {
    pub calls: u64,
    pub sum: u64,
}

impl Tally {
    fn none() -> Self {
        Tally { calls: 0, sum: 0 }
    }

    fn add(&mut self, count: u32, sum: u64) {
        self.calls = self.calls.wrapping_add(u64::from(count));
        self.sum = self.sum.wrapping_add(sum);
    }
}

// Of readers' steps, as many as all 16 have work: a lookup takes 9 steps, a walk m. Of turns, so many that none is
// refused; whoever is at work at first is so until the last round of the circle.
pub(crate) fn made<W: Way>(work: Work, m: u32, slots: &mut [u64], times: u32) -> Tally {
    match work {
        Work::ReadersSteps => {
            let panel = readers_at_work(m, slots);
            runs(panel, slots, 144, times, |panel, slots, i| {
                W::step_reader(panel, slots, i % 16)
            })
        }
        Work::WritersSteps => writer_runs::<W>(m, slots, times),
        Work::Lookups => runs(idle_panel(m, 8), slots, 16, times, |panel, slots, i| {
            W::start_lookup(panel, slots, i % 16, i % 16 + 1)
        }),
        Work::Turns => turn_runs(all_at_work(m, slots), slots, 153, times),
        Work::OneReadersTurns => turn_runs(one_at_work(m, slots), slots, 16, times),
        Work::OneReadersSteps => {
            let panel = one_at_work(m, slots);
            runs(panel, slots, 16, times, |panel, slots, _| {
                W::step_reader(panel, slots, 5)
            })
        }
    }
}

// So many runs, each from the same record on.
fn runs<T: Worth, F: Fn(&mut Record, &mut [u64], u32) -> T>(
    panel: Record,
    slots: &mut [u64],
    count: u32,
    times: u32,
    call: F,
) -> Tally
    requires { F.IsAlwaysCallable call }
{
    let mut tally = Tally::none();
    for _ in 0..times {
        tally.add(count, run(panel, slots, count, &call));
    }
    tally
}

// So many calls from this record on, each told how many came before it: the sum of what they answer.
fn run<T: Worth, F: Fn(&mut Record, &mut [u64], u32) -> T>(
    mut panel: Record,
    slots: &mut [u64],
    count: u32,
    call: F,
) -> u64
    requires { F.IsAlwaysCallable call }
{
    let mut sum = 0u64;
    for i in 0..count {
        sum = sum.wrapping_add(call(&mut panel, slots, i).worth());
    }
    sum
}

fn turn_runs(panel: Record, slots: &mut [u64], count: u32, times: u32) -> Tally {
    runs(panel, slots, count, times, |panel, slots, _| {
        in_place::turn(panel, slots)
    })
}

// The put searches as far as the reach of 7, scans all 8 positions, stores the reach and the word. The change
// searches all 8 positions and stores the word, and so does the removal, which then lowers the reach.
fn writer_runs<W: Way>(m: u32, slots: &mut [u64], times: u32) -> Tally {
    let putting = writer::start_put(idle_panel(m, 7), slots, POINT, 7).panel;
    let changing = writer::start_change(idle_panel(m, 8), slots, POINT, 4294967295, 1).panel;
    let removing = writer::start_removal(idle_panel(m, 8), slots, POINT).panel;
    let step = |panel: &mut Record, slots: &mut [u64], _: u32| W::step_writer(panel, slots);
    let mut tally = Tally::none();
    for _ in 0..times {
        tally.add(18, run(putting, slots, 18, &step));
        tally.add(10, run(changing, slots, 10, &step));
        tally.add(11, run(removing, slots, 11, &step));
    }
    tally
}
