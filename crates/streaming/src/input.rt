// Lines of standard input, where the block that was read has them. A line of more than 4096 octets is not kept.
ghost use Rattle.std.specs.Prelude.{◌≡◌, ◌≤◌, true, false, length, take};
ghost use Rattle.text.specs.Marks.{FirstMark};
ghost use Rattle.streaming.specs.Inputs.{no_input, SoundInput, Cuts, Cut, LastLine, Started, Shortened, Refilled, HeldLine, NextLine, IsLong};

use crate::source;
use crate::source::Source;

const LONGEST_LINE: usize = 4096;

// No line takes so many reads.
const MOST_READS: u64 = 4611686018427387905;

#[derive(Clone, Copy)]
pub struct Input {
    // what was read; the octets of the block from `taken` on are not yet taken
    pub source: Source,
    pub taken: usize,
    // the line's octets go from `from` to `end`; of a long one they are no more than a part
    pub from: usize,
    pub end: usize,
    pub long: bool,
    // there is a line
    pub ready: bool,
}

pub fn no_input() -> Input
    ensures { result ≡ no_input }
{
    let source = source::unread();
    Input {
        source,
        taken: 0,
        from: 0,
        end: 0,
        long: false,
        ready: false,
    }
}

// The next line, if what was read has its end.
pub fn held_line(block: &[u8; 65536], before: Input) -> Input
    requires { SoundInput before }
    ensures { HeldLine block.now before result }
{
    let input = started(before);
    let end = newline(block, input);
    let source = input.source;
    if end < source::filled(source) {
        return cut(input, end, end + 1);
    }
    input
}

// Goes on to the next line. The end of the input ends a last line, too; a read that failed ends none.
pub fn read_line(rt: &HostRuntime, block: &mut [u8; 65536], before: Input) -> Input
    requires { SoundInput before }
    ensures { NextLine block.old block.new before result }
{
    let mut input = started(before);
    for _ in 0..MOST_READS {
        let end = newline(block, input);
        let source = input.source;
        if end < source::filled(source) {
            return cut(input, end, end + 1);
        }
        if source::is_failed(source) {
            return input;
        }
        if source::is_over(source) {
            return last_line(input);
        }
        input = refilled(rt, block, shortened(input));
    }
    input
}

// No line is ready, and nothing of the next is dropped.
fn started(before: Input) -> Input
    requires { SoundInput before }
    ensures { Started before result }
{
    let mut input = before;
    input.long = false;
    input.ready = false;
    input
}

// The place of the first newline that is not yet taken, or the end of what was read where there is none.
fn newline(block: &[u8; 65536], input: Input) -> usize
    requires { SoundInput input }
    ensures { FirstMark 10 (take input.source.fill block.now) input.taken result }
{
    let source = input.source;
    let fill = source::filled(source);
    text::line_end(&block[0..fill], input.taken)
}

// The line up to `end`; what is taken goes up to `taken`.
fn cut(input: Input, end: usize, taken: usize) -> Input
    requires sound_input { SoundInput input }
    requires cuts { Cuts input end taken }
    ensures { Cut input end taken result }
{
    let source = input.source;
    let from = input.taken;
    Input {
        source,
        taken,
        from,
        end,
        long: is_long(input.long, end - from),
        ready: true,
    }
}

// Whether a line of which that much is held, and perhaps more was dropped, is longer than the longest.
fn is_long(dropped: bool, size: usize) -> bool
    ensures { IsLong dropped size result }
{
    if dropped {
        return true;
    }
    LONGEST_LINE < size
}

// What is left at the end of the input is a line, unless it is nothing.
fn last_line(input: Input) -> Input
    requires { SoundInput input }
    ensures { LastLine input result }
{
    let source = input.source;
    let fill = source::filled(source);
    if input.long {
        return cut(input, fill, fill);
    }
    if input.taken < fill {
        return cut(input, fill, fill);
    }
    input
}

// A line that is already longer than the longest is dropped, as far as it was read.
fn shortened(before: Input) -> Input
    requires { SoundInput before }
    ensures { Shortened before result }
{
    let mut input = before;
    let source = input.source;
    let fill = source::filled(source);
    if LONGEST_LINE < fill - input.taken {
        input.long = true;
        input.taken = fill;
    }
    input
}

// Reads once, behind what is not yet taken.
fn refilled(rt: &HostRuntime, block: &mut [u8; 65536], before: Input) -> Input
    requires { SoundInput before }
    ensures { Refilled block.old block.new before result }
{
    let mut input = before;
    let source = input.source;
    let more = source::read_more(rt, block, input.taken, source);
    input.source = more;
    input.taken = 0;
    input
}
