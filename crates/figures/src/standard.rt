// The standard's Table 1 and Table 2 (clauses 6.2 and 6.4). An entry agrees if the reported millimetres are within half a unit
// of its last printed digit, the end included. The zeros of 1800 km are no digits: its unit is 100 km.
ghost use Rattle.figures.specs.Counting.{Room, After, Printed};

use crate::output;
use crate::tally::Tally;
use ground::{AltitudeUncertaintyCode, Millimetres, Refusal, UncertaintyCode};

// The code K, the printed figure in millimetres, and half a unit of its last printed digit.
#[derive(Clone, Copy)]
struct Entry(u8, u32, u32);

const UNCERTAINTIES: [Entry; 10] = [
    Entry(0, 0, 500),
    Entry(1, 1000, 500),
    Entry(2, 2100, 50),
    Entry(20, 57300, 50),
    Entry(40, 443000, 500),
    Entry(60, 3000000, 500000),
    Entry(80, 20000000, 500000),
    Entry(100, 138000000, 500000),
    Entry(120, 927000000, 500000),
    Entry(127, 1800000000, 50000000),
];

const ALTITUDE_UNCERTAINTIES: [Entry; 10] = [
    Entry(0, 0, 500),
    Entry(1, 1130, 5),
    Entry(2, 2280, 5),
    Entry(20, 28700, 50),
    Entry(40, 75800, 50),
    Entry(60, 153000, 50),
    Entry(80, 279400, 50),
    Entry(100, 486600, 50),
    Entry(120, 826100, 50),
    Entry(127, 990500, 50),
];

#[derive(Clone, Copy)]
enum Table {
    Uncertainty,
    AltitudeUncertainty,
}

// Table 1.
pub fn uncertainties(rt: &HostRuntime, tally: Tally) -> Tally
    requires { Room 10 tally }
    ensures { After 10 tally result }
{
    compare_all(rt, tally, Table::Uncertainty, UNCERTAINTIES)
}

// Table 2.
pub fn altitude_uncertainties(rt: &HostRuntime, tally: Tally) -> Tally
    requires { Room 10 tally }
    ensures { After 10 tally result }
{
    compare_all(
        rt,
        tally,
        Table::AltitudeUncertainty,
        ALTITUDE_UNCERTAINTIES,
    )
}

fn compare_all(rt: &HostRuntime, tally: Tally, table: Table, entries: [Entry; 10]) -> Tally
    requires { Room 10 tally }
    ensures { After 10 tally result }
{
    let mut t = tally;
    for entry in entries {
        t = compare(
            rt,
            print_name(rt, t, table),
            entry,
            reported(table, entry.0),
        );
    }
    t
}

fn print_name(rt: &HostRuntime, tally: Tally, table: Table) -> Tally
    ensures { Printed tally result }
{
    match table {
        Table::Uncertainty => output::print(rt, tally, b"uncertainty"),
        Table::AltitudeUncertainty => output::print(rt, tally, b"altitude-uncertainty"),
    }
}

fn reported(table: Table, code: u8) -> Result<Millimetres, Refusal> {
    match table {
        Table::Uncertainty => radii::reported_uncertainty(UncertaintyCode(code)),
        Table::AltitudeUncertainty => {
            radii::reported_altitude_uncertainty(AltitudeUncertaintyCode(code))
        }
    }
}

// The code, what is reported, the printed figure and half its unit.
fn compare(
    rt: &HostRuntime,
    tally: Tally,
    entry: Entry,
    reported: Result<Millimetres, Refusal>,
) -> Tally
    requires { Room 1 tally }
    ensures { After 1 tally result }
{
    let code = output::print_number(rt, tally, entry.0 as u64);
    let found = print_reported(rt, code, reported);
    let figure = output::print_number(rt, found, entry.1 as u64);
    let half = output::print_number(rt, figure, entry.2 as u64);
    output::end_line(rt, half, agrees(entry, reported))
}

// What is reported, `-` for a refusal.
fn print_reported(rt: &HostRuntime, tally: Tally, reported: Result<Millimetres, Refusal>) -> Tally
    ensures { Printed tally result }
{
    match reported {
        Ok(radius) => output::print_number(rt, tally, radius.0 as u64),
        Err(_) => output::print(rt, tally, b" -"),
    }
}

fn agrees(entry: Entry, reported: Result<Millimetres, Refusal>) -> bool {
    reported.is_ok_and(|radius| radius.0.abs_diff(entry.1) <= entry.2)
}
