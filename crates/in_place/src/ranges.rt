// The ranges of a record behind a reference: its arrays are tested where they are. The loops test two
// elements an iteration, which halves what a loop costs besides its tests.
ghost use Rattle.std.specs.Prelude.{◌≡◌};
ghost use Rattle.record_ranges.specs.Ranges.{readers_in_range, stations_in_range, in_range};

use record::Record;
use record_ranges::{are_counts_in_range, are_parts_in_range, reader_joined, station_joined};

fn are_readers_in_range(panel: &Record) -> bool
    ensures { result ≡ readers_in_range panel.now.m panel.now.k panel.now.readers }
{
    let mut fit = true;
    let mut i = 0;
    while i < 16 {
        fit = reader_joined(fit, panel.readers[i], panel.m, panel.k);
        i += 1;
        fit = reader_joined(fit, panel.readers[i], panel.m, panel.k);
        i += 1;
    }
    fit
}

pub(crate) fn are_stations_in_range(panel: &Record) -> bool
    ensures { result ≡ stations_in_range panel.now.stations }
{
    let mut fit = true;
    let mut i = 0;
    while i < 32 {
        fit = station_joined(fit, panel.stations[i]);
        i += 1;
        fit = station_joined(fit, panel.stations[i]);
        i += 1;
    }
    fit
}

// Whether every field is in range, for a number of slots lent.
#[tactic(auto, unfolding(record_ranges::specs::Ranges::in_range))]
pub(crate) fn fits_at(panel: &Record, lent: usize) -> bool
    ensures { result ≡ in_range lent panel.now }
{
    are_parts_in_range(
        lent,
        panel.m,
        panel.k,
        panel.reach,
        are_counts_in_range(&panel.counts, panel.m, panel.k),
        panel.writer,
        are_readers_in_range(panel),
        are_stations_in_range(panel),
        panel.place,
    )
}
