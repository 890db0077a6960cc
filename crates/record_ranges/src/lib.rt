// The ranges of the record's fields, one function for each group, joined in `is_in_range`.
#![tactic(auto)]

ghost use Rattle.std.specs.Prelude.{◌≡◌, leb};
ghost use Rattle.std.specs.List.{list_all};
ghost use Rattle.record_ranges.specs.Ranges.{reader_in_range, readers_in_range, station_in_range, stations_in_range, counts_in_range, sizes_in_range, parts_in_range, in_range};
ghost use Rattle.conditions.specs.Conditions.{both};

use record::{Reader, Record, Station, Writer};
use slot_words::points::is_valid_point;
use work_ranges::{is_work_in_range, is_writer_in_range};

#[tactic(auto, unfolding(crate::specs::Ranges::reader_in_range))]
fn is_reader_in_range(reader: Reader, m: u32, k: u32) -> bool
    ensures { result ≡ reader_in_range m k reader }
{
    is_work_in_range(reader.work, m, k)
}

#[tactic(auto, unfolding(crate::specs::Ranges::readers_in_range))]
fn are_readers_in_range(readers: &[Reader], m: u32, k: u32) -> bool
    ensures { result ≡ readers_in_range m k readers.now }
{
    readers
        .iter()
        .all(|reader| is_reader_in_range(*reader, m, k))
}

// A station that sent no command is told first: most have sent none.
#[tactic(auto, unfolding(conditions::specs::Conditions::both, conditions::specs::Conditions::either, crate::specs::Ranges::station_in_range))]
fn is_station_in_range(station: Station) -> bool
    ensures { result ≡ station_in_range station }
{
    station.number == 0
        || station.number <= 16777215 && is_valid_point(station.point) && station.action <= 2
}

#[tactic(auto, unfolding(crate::specs::Ranges::stations_in_range))]
fn are_stations_in_range(stations: &[Station]) -> bool
    ensures { result ≡ stations_in_range stations.now }
{
    stations.iter().all(|station| is_station_in_range(*station))
}

fn are_at_most(counts: &[u32], m: u32) -> bool
    ensures { result ≡ list_all (λ count. leb count m) counts.now }
{
    counts.iter().all(|count| *count <= m)
}

// Only the counts of indices 1 to k are fields.
#[tactic(auto, using(std::proofs::lemmas::List::take_min), unfolding(crate::specs::Ranges::counts_in_range))]
pub fn are_counts_in_range(counts: &[u32; 64], m: u32, k: u32) -> bool
    ensures { result ≡ counts_in_range m k counts.now }
{
    are_at_most(&counts[..(k as usize).min(64)], m)
}

#[tactic(auto, unfolding(conditions::specs::Conditions::both, conditions::specs::Conditions::within, crate::specs::Ranges::sizes_in_range))]
pub fn are_sizes_in_range(m: u32, k: u32, lent: usize) -> bool
    ensures { result ≡ sizes_in_range m k lent }
{
    (1..=4096).contains(&m) && (1..=64).contains(&k) && lent == m as usize
}

// Whether all before and this reader are in range: one iteration of the loops in place. By `&&` it leaves early
// where `&` would join both conditions, since then the compiler unrolls the loop.
#[tactic(auto, unfolding(conditions::specs::Conditions::both))]
pub fn reader_joined(before: bool, reader: Reader, m: u32, k: u32) -> bool
    ensures { result ≡ both before (reader_in_range m k reader) }
{
    before && is_reader_in_range(reader, m, k)
}

// The same of a station. Most have sent no command, and leave nothing to test; of the others `&` joins both
// conditions, since with `&&` the compiler asks for both of each station.
#[tactic(auto, unfolding(conditions::specs::Conditions::both, conditions::specs::Conditions::either, crate::specs::Ranges::station_in_range))]
pub fn station_joined(before: bool, station: Station) -> bool
    ensures { result ≡ both before (station_in_range station) }
{
    if station.number == 0 {
        return before;
    }
    before & is_station_in_range(station)
}

// Whether every field is in range, by whether those of the three arrays are.
#[tactic(auto, unfolding(conditions::specs::Conditions::both, crate::specs::Ranges::parts_in_range))]
pub fn are_parts_in_range(
    lent: usize,
    m: u32,
    k: u32,
    reach: u32,
    counts: bool,
    writer: Writer,
    readers: bool,
    stations: bool,
    place: u32,
) -> bool
    ensures { result ≡ parts_in_range lent m k reach counts writer.work readers stations place }
{
    are_sizes_in_range(m, k, lent)
        && reach <= k
        && counts
        && is_writer_in_range(writer.work, k)
        && readers
        && stations
        && place <= 16
}

// Whether every field is in range, for a number of slots lent; where not, a call gets refusal 1.
#[tactic(auto, unfolding(crate::specs::Ranges::in_range))]
pub fn is_in_range(panel: Record, lent: usize) -> bool
    ensures { result ≡ in_range lent panel }
{
    are_parts_in_range(
        lent,
        panel.m,
        panel.k,
        panel.reach,
        are_counts_in_range(&panel.counts, panel.m, panel.k),
        panel.writer,
        are_readers_in_range(&panel.readers, panel.m, panel.k),
        are_stations_in_range(&panel.stations),
        panel.place,
    )
}
