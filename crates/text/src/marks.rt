// Where a field or a line ends.
ghost use Rattle.std.specs.Prelude.{◌≤◌, length};
ghost use Rattle.text.specs.Marks.{FirstMark};

use memchr::memchr;

// Most fields are shorter.
const SHORT_FIELD: usize = 16;

// The place of the first space from `from` on, or the line's length where there is none. In a short field each octet is looked at in turn.
pub fn field_end(line: &[u8], from: usize) -> usize
    requires { from ≤ length line.now }
    ensures { FirstMark 32 line.now from result }
{
    let near = line.len().min(from + SHORT_FIELD);
    for place in from..near {
        if line[place] == 32 {
            return place;
        }
    }
    if near == line.len() {
        return near;
    }
    first_mark(line, near, 32)
}

// The place of the first newline from `from` on, or the length of what is held where there is none. An empty line needs no search.
pub fn line_end(held: &[u8], from: usize) -> usize
    requires { from ≤ length held.now }
    ensures { FirstMark 10 held.now from result }
{
    if from < held.len() && held[from] == 10 {
        return from;
    }
    first_mark(held, from, 10)
}

fn first_mark(s: &[u8], from: usize, mark: u8) -> usize
    requires { from ≤ length s.now }
    ensures { FirstMark mark s.now from result }
{
    match memchr(mark, &s[from..]) {
        Some(place) => from + place,
        None => s.len(),
    }
}
