// Runs the bench figures of document 01 that are not proved, and the standard's Table 1 and Table 2. A line for each figure says
// what the library gives, what it should be, and `ok` or `DIFFERS`; the last line is `end`, how many figures there were and how
// many differ. tests/figures.py works out what must be printed.
#![tactic(auto)]

mod bench;
mod output;
mod standard;
mod tally;

use tally::Tally;

fn main(rt: HostRuntime) {
    let sink = streaming::unwritten();
    let start = Tally {
        figures: 0,
        differences: 0,
        sink,
    };
    let empty = bench::empty_list(&rt, start);
    let every = bench::every_list(&rt, empty);
    let short = bench::short_buffer(&rt, every);
    let radii = standard::uncertainties(&rt, short);
    let all = standard::altitude_uncertainties(&rt, radii);
    output::print_end(&rt, all);
}
