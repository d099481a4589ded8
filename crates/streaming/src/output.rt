// Answers, written to standard output when there is no room for one more, and the last line.
ghost use Rattle.std.specs.Prelude.{◌≡◌, ◌≤◌, false, length, take};
ghost use Rattle.streaming.specs.Sinks.{Wrote};
ghost use Rattle.streaming.specs.Inputs.{SoundInput, NextLine};
ghost use Rattle.streaming.specs.Outputs.{no_output, SoundOutput, Written, MadeRoom, EndWritten, NextOfRun, WritesEnd};

use crate::input::Input;
use crate::sink::Sink;
use crate::{input, sink, source};

// Answers are written before they take more octets.
const ROOM: usize = 65536;

// No last line takes more octets.
const LONGEST_END: usize = 46;

#[derive(Clone, Copy)]
pub struct Output {
    // octets of answers that are not yet written
    pub put: usize,
    // lines answered
    pub answered: u64,
    // what was written
    pub sink: Sink,
}

// A program that answers lines, where it stands.
#[derive(Clone, Copy)]
pub struct Run {
    pub input: Input,
    pub output: Output,
}

pub fn no_output() -> Output
    ensures { result ≡ no_output }
{
    let sink = sink::unwritten();
    Output {
        put: 0,
        answered: 0,
        sink,
    }
}

// Writes the answers if there is no room for one more of so many octets.
pub fn make_room(rt: &HostRuntime, out: &[u8; 65536], output: Output, longest: usize) -> Output
    requires sound_output { SoundOutput output }
    requires closed_value { output.sink.closed ≡ false }
    requires longest_bound { longest ≤ 65536 }
    ensures { MadeRoom longest out.now output result }
{
    if ROOM - output.put < longest {
        return written(rt, out, output);
    }
    output
}

// Goes on to the next line. Before anything is read the answers are written, so that none waits for what is not there yet.
pub fn next_line(rt: &HostRuntime, out: &[u8; 65536], block: &mut [u8; 65536], before: Run) -> Run
    requires sound_input { SoundInput before.input }
    requires sound_output { SoundOutput before.output }
    requires closed_value { before.output.sink.closed ≡ false }
    ensures { NextOfRun block.old block.new out.now before result }
{
    let output = before.output;
    let input = input::held_line(block, before.input);
    if input.ready {
        return Run { input, output };
    }
    let output = written(rt, out, output);
    if sink::is_closed(output.sink) {
        return Run { input, output };
    }
    let input = read_on(rt, block, input, output);
    Run { input, output }
}

// Reads the next line, where no answer is left to be written. The answers are here for what it requires alone.
fn read_on(rt: &HostRuntime, block: &mut [u8; 65536], input: Input, output: Output) -> Input
    requires sound_input { SoundInput input }
    requires put_value { output.put ≡ 0 }
    ensures { NextLine block.old block.new input result }
{
    input::read_line(rt, block, input)
}

// Writes the answers that are left and, unless a read failed, the number of lines. Nothing is written after a write that failed.
pub fn write_end(rt: &HostRuntime, out: &mut [u8; 65536], before: Run) -> Run
    requires { SoundOutput before.output }
    ensures { WritesEnd out.old out.new before result }
{
    let input = before.input;
    let output = before.output;
    if sink::is_closed(output.sink) {
        return before;
    }
    if source::is_failed(input.source) {
        let output = written(rt, out, output);
        return Run { input, output };
    }
    let output = end_written(rt, out, output);
    Run { input, output }
}

// Writes the answers that are left, and the number of lines.
fn end_written(rt: &HostRuntime, out: &mut [u8; 65536], output: Output) -> Output
    requires sound_output { SoundOutput output }
    requires closed_value { output.sink.closed ≡ false }
    ensures { EndWritten out.old out.new output result }
{
    let mut left = make_room(rt, out, output, LONGEST_END);
    if sink::is_closed(left.sink) {
        return left;
    }
    left.put = text::put_end(out, left.put, left.answered);
    written(rt, out, left)
}

// Writes the answers that are put.
fn written(rt: &HostRuntime, out: &[u8; 65536], output: Output) -> Output
    requires sound_output { SoundOutput output }
    requires closed_value { output.sink.closed ≡ false }
    ensures { Written out.now output result }
{
    let put = output.put;
    let sink = write_put(rt, &out[0..put], out, output);
    Output {
        put: 0,
        answered: output.answered,
        sink,
    }
}

// Writes the text of the answers that are put. The answers are here for what it requires alone.
fn write_put(rt: &HostRuntime, text: &[u8], out: &[u8], output: Output) -> Sink
    requires text_value { text.now ≡ take output.put out.now }
    requires closed_value { output.sink.closed ≡ false }
    ensures { Wrote text.now output.sink result }
{
    sink::write_text(rt, text, output.sink)
}
