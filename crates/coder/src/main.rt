// Codes quantities, and reports codes: each line of standard input is answered by a line of standard output, its number,
// the answer, and on 0 the code or the quantity. A last line says how many there were.
#![tactic(auto)]

mod code_text;
mod lines;
mod names;
mod report_text;

ghost use Rattle.std.specs.Prelude.{◌≡◌, false, List, [], ℕ, ◌<◌, length};
ghost use Rattle.streaming.specs.Inputs.{SoundInput, Line, most_octets};
ghost use Rattle.streaming.specs.Outputs.{SoundOutput};
ghost use Rattle.streaming.specs.Answering.{AnswerPut, Stopped};
ghost use Rattle.coder.specs.Coding.{Prints, CoderAnswer, CodesAll};

use streaming::{Input, Output, Run};
use text::SaidLine;

// No answer takes more octets.
const LONGEST_ANSWER: usize = 46;

// No input has so many lines.
const MOST_LINES: u64 = 4611686018427387904;

fn main(rt: HostRuntime) {
    let mut out = io::large_buffer();
    let mut block = io::large_buffer();
    run(&rt, &mut out, &mut block);
}

// Answers every line of the input, and says how many there were. Answers where it stands then.
fn run(rt: &HostRuntime, out: &mut [u8; 65536], block: &mut [u8; 65536]) -> Run
    ensures { CodesAll block.old block.new out.new result }
{
    let answered = answer_lines(rt, out, block);
    streaming::write_end(rt, out, answered)
}

// Answers every line of the input. The end of the input ends it, a closed output, and a read that fails.
fn answer_lines(rt: &HostRuntime, out: &mut [u8; 65536], block: &mut [u8; 65536]) -> Run
    ensures { Stopped CoderAnswer [] block.old block.new out.new result }
{
    let input = streaming::no_input();
    let output = streaming::no_output();
    let mut run = Run { input, output };
    for _ in 0..MOST_LINES {
        let next = streaming::next_line(rt, out, block, run);
        let input = next.input;
        if !input.ready {
            return next;
        }
        let output = answer_line(rt, out, block, input, next.output);
        run = Run { input, output };
        if streaming::is_closed(output.sink) {
            return run;
        }
    }
    run
}

// Answers the line that is held.
fn answer_line(
    rt: &HostRuntime,
    out: &mut [u8; 65536],
    block: &[u8; 65536],
    input: Input,
    before: Output,
) -> Output
    requires sound_input { SoundInput input }
    requires sound_output { SoundOutput before }
    requires closed_value { before.sink.closed ≡ false }
    requires answered_lt_most_octets { before.answered < most_octets }
    ensures { AnswerPut CoderAnswer block.now out.old out.new input before result }
{
    let mut output = streaming::make_room(rt, out, before, LONGEST_ANSWER);
    output.answered += 1;
    output.put = text::put_line(out, output.put, output.answered, said(block, input));
    output
}

// What is said for the line that is held.
fn said(block: &[u8; 65536], input: Input) -> SaidLine
    requires { SoundInput input }
    ensures { (line : List ℕ) → Line block.now input line → Prints line result }
{
    if input.long {
        return SaidLine::Unreadable;
    }
    let from = input.from;
    let end = input.end;
    lines::answer(&block[from..end])
}
