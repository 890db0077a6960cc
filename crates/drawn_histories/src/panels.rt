// The four panels and the histories on them.
ghost use Rattle.std.specs.Prelude.{◌^◌, ◌<◌};

use crate::history::History;
use crate::ways::Way;
use record::Station;
use record::parts::with_station;
use std::io;

// The generator runs on from panel to panel.
pub(crate) fn run<W: Way>(rt: &impl Print) -> io::Result<()> {
    // Two points for one slot, and station 4 comes to the end of its numbers.
    let drawn = over::<W, 1>(rt, 3, Some(4), 2, 1)?;
    // So few points that the reach often goes up and down.
    let drawn = over::<W, 8>(rt, 4, None, 6, drawn)?;
    // More points than slots: the reach is high, and puts find no perch.
    let drawn = over::<W, 16>(rt, 16, None, 24, drawn)?;
    // Walks of many steps, between which points come and go.
    over::<W, 64>(rt, 16, None, 64, drawn)?;
    Ok(())
}

// A history on a panel of M slots and k functions, with a station that has ten numbers left, if any; what the
// generator has drawn last behind it.
fn over<W: Way, const M: usize>(
    rt: &impl Print,
    k: u32,
    late: Option<u32>,
    points: u32,
    drawn: u32,
) -> io::Result<u32>
    requires { M < 2 ^ 32 }
{
    let m = M as u32;
    println!(rt; "panel {m} {k}")?;
    let mut slots = [0u64; M];
    let mut panel = fresh_panel::fresh(&mut slots, m, k).panel;
    if let Some(station) = late {
        let last = Station {
            number: 16777205,
            point: 1,
            action: 0,
            answer: None,
        };
        panel = with_station(panel, station, last);
    }
    let mut history = History {
        panel,
        slots: &mut slots,
        points,
        drawn,
    };
    history.run::<W>(rt)?;
    Ok(history.drawn)
}
