// Parts of a line, written as they come. Once a write failed, nothing more is written.
ghost use Rattle.figures.specs.Counting.{Room, After, Printed};

use crate::tally;
use crate::tally::Tally;

// Writes the text, unless the output is closed.
pub fn print(rt: &HostRuntime, tally: Tally, text: &[u8]) -> Tally
    ensures { Printed tally result }
{
    let before = tally.sink;
    if streaming::is_closed(before) {
        return tally;
    }
    let sink = streaming::write_text(rt, text, before);
    Tally {
        figures: tally.figures,
        differences: tally.differences,
        sink,
    }
}

// A space and a number.
pub fn print_number(rt: &HostRuntime, tally: Tally, n: u64) -> Tally
    ensures { Printed tally result }
{
    let mut digits = [0; 20];
    let count = io::decimal(n, &mut digits);
    let spaced = print(rt, tally, b" ");
    print(rt, spaced, &digits[..count])
}

// A space and the octets.
pub fn print_octets(rt: &HostRuntime, tally: Tally, s: &[u8; 7]) -> Tally
    ensures { Printed tally result }
{
    let mut t = print(rt, tally, b" ");
    for octet in s {
        t = print_octet(rt, t, *octet);
    }
    t
}

fn print_octet(rt: &HostRuntime, tally: Tally, octet: u8) -> Tally
    ensures { Printed tally result }
{
    let mut digits = [0; 16];
    let count = io::hex(octet as u64, 2, &mut digits);
    print(rt, tally, &digits[..count])
}

// What was found and what it should be; the line ends as it compares.
pub fn compare(rt: &HostRuntime, tally: Tally, found: u64, expected: u64) -> Tally
    requires { Room 1 tally }
    ensures { After 1 tally result }
{
    let first = print_number(rt, tally, found);
    let second = print_number(rt, first, expected);
    end_line(rt, second, found == expected)
}

// Ends the line of a figure, and counts it.
pub fn end_line(rt: &HostRuntime, tally: Tally, agrees: bool) -> Tally
    requires { Room 1 tally }
    ensures { After 1 tally result }
{
    let ended = print_verdict(rt, tally, agrees);
    tally::counted(ended, agrees)
}

fn print_verdict(rt: &HostRuntime, tally: Tally, agrees: bool) -> Tally
    ensures { Printed tally result }
{
    if agrees {
        return print(rt, tally, b" ok\n");
    }
    print(rt, tally, b" DIFFERS\n")
}

// The last line.
pub fn print_end(rt: &HostRuntime, tally: Tally) -> Tally
    ensures { Printed tally result }
{
    let named = print(rt, tally, b"end");
    let first = print_number(rt, named, tally.figures);
    let second = print_number(rt, first, tally.differences);
    print(rt, second, b"\n")
}
