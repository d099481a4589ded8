// What the fields of a line, parted by single spaces, hold, each read once.
ghost use Rattle.std.specs.Prelude.{◌≡◌, List, ℕ, ◌≤◌, length};
ghost use Rattle.text.specs.Numerals.{numeral_of};
ghost use Rattle.request_lines.specs.Entries.{EntryHolds, EntryAt, PastSign, GoesOn, HeldInEight};

use crate::Unreadable;
use ground::Parts;

// What a field holds: a number of that size with no sign or after a minus sign, a dash alone, or neither.
#[derive(Clone, Copy)]
pub enum Entry {
    Neither,
    Dash,
    Plain(u64),
    Minus(u64),
}

// Reads a line of eight fields. Each but the last ends at a space.
pub fn read_eight(held: &mut [Entry; 8], line: &[u8]) -> Result<(), Unreadable>
    ensures { HeldInEight line.now held.new result }
{
    let mut from = 0;
    for number in 0..7 {
        let (entry, end) = entry_at(line, from);
        if end == line.len() {
            return Err(Unreadable);
        }
        held[number] = entry;
        from = end + 1;
    }
    let (last, end) = entry_at(line, from);
    if end < line.len() {
        return Err(Unreadable);
    }
    held[7] = last;
    Ok(())
}

// What the field that starts at `from` holds, and the place after it.
fn entry_at(line: &[u8], from: usize) -> (Entry, usize)
    requires { from ≤ length line.now }
    ensures { EntryAt line.now from result.0 result.1 }
{
    let first = past_sign(line, from);
    let digits = text::digits_from(line, first);
    let size = digits.size;
    let end = digits.end;
    if goes_on(line, end) {
        return (Entry::Neither, text::field_end(line, end));
    }
    if first < end {
        if from < first {
            return (Entry::Minus(size), end);
        }
        return (Entry::Plain(size), end);
    }
    if from < first {
        return (Entry::Dash, end);
    }
    (Entry::Neither, end)
}

// The place after a minus sign, where one stands.
fn past_sign(line: &[u8], from: usize) -> usize
    requires { from ≤ length line.now }
    ensures { PastSign line.now from result }
{
    if from < line.len() && line[from] == 45 {
        from + 1
    } else {
        from
    }
}

// Whether a field that goes up to `end` goes on there.
fn goes_on(line: &[u8], end: usize) -> bool
    requires { end ≤ length line.now }
    ensures { GoesOn line.now end result }
{
    end < line.len() && line[end] != 32
}

// The numeral in a field that holds that.
pub fn numeral_of(entry: Entry) -> Option<Parts>
    ensures { (f : List ℕ) → EntryHolds f entry → result ≡ numeral_of f }
{
    match entry {
        Entry::Plain(size) => Some(Parts {
            negative: false,
            size,
        }),
        Entry::Minus(size) => Some(Parts {
            negative: true,
            size,
        }),
        Entry::Dash => None,
        Entry::Neither => None,
    }
}
