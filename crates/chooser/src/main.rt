// Chooses the shape for one point. The first line of standard input is the receiver's list, each further line a request, which is
// answered by a line of standard output: its number, document 01's answer, and on 0 the octets of the message. A last line says
// how many requests there were.
#![tactic(auto)]

ghost use Rattle.std.specs.Prelude.{◌≡◌, false, List, ℕ, ◌+◌, ◌≤◌, ◌<◌, length};
ghost use Rattle.streaming.specs.Inputs.{SoundInput, Line, most_octets};
ghost use Rattle.streaming.specs.Outputs.{SoundOutput};
ghost use Rattle.streaming.specs.Answering.{AnswerPut};
ghost use Rattle.chooser.specs.Choosing.{LineLists, LineAsks, ChooserAnswer, ChoosesAll, AnswersRest, StoppedChoosing, PutsChosen};

use request_lines::{Answer, Unreadable};
use requests::Request;
use streaming::{Input, Output, Run};

// No answer takes more octets.
const LONGEST_ANSWER: usize = 65;

// No input has so many lines.
const MOST_LINES: u64 = 4611686018427387904;

fn main(rt: HostRuntime) {
    let mut out = io::large_buffer();
    let mut block = io::large_buffer();
    run(&rt, &mut out, &mut block);
}

// Answers every request of the input, and says how many there were. Answers where it stands then.
fn run(rt: &HostRuntime, out: &mut [u8; 65536], block: &mut [u8; 65536]) -> Run
    ensures { ChoosesAll block.old block.new out.new result }
{
    let answered = answer_input(rt, out, block);
    streaming::write_end(rt, out, answered)
}

// Takes the receiver's list from the first line, and answers every line after it.
fn answer_input(rt: &HostRuntime, out: &mut [u8; 65536], block: &mut [u8; 65536]) -> Run
    ensures { StoppedChoosing block.old block.new out.new result }
{
    let input = streaming::no_input();
    let output = streaming::no_output();
    let first = streaming::next_line(rt, out, block, Run { input, output });
    let line = first.input;
    if !line.ready {
        return first;
    }
    let list = list_held(block, line);
    answer_lines(rt, out, block, first, list)
}

// Answers every line after the first. The end of the input ends it, a closed output, and a read that fails.
fn answer_lines(
    rt: &HostRuntime,
    out: &mut [u8; 65536],
    block: &mut [u8; 65536],
    first: Run,
    list: u16,
) -> Run
    requires sound_input { SoundInput first.input }
    requires sound_output { SoundOutput first.output }
    requires closed_value { first.output.sink.closed ≡ false }
    ensures { AnswersRest list first block.old block.new out.old out.new result }
{
    let mut run = first;
    for _ in first.output.answered..MOST_LINES {
        let next = streaming::next_line(rt, out, block, run);
        let input = next.input;
        if !input.ready {
            return next;
        }
        let output = answer_line(rt, out, block, input, list, next.output);
        run = Run { input, output };
        if streaming::is_closed(output.sink) {
            return run;
        }
    }
    run
}

// Answers the line that is held.
fn answer_line(
    rt: &HostRuntime,
    out: &mut [u8; 65536],
    block: &[u8; 65536],
    input: Input,
    list: u16,
    before: Output,
) -> Output
    requires sound_input { SoundInput input }
    requires sound_output { SoundOutput before }
    requires closed_value { before.sink.closed ≡ false }
    requires answered_lt_most_octets { before.answered < most_octets }
    ensures { AnswerPut (ChooserAnswer list) block.now out.old out.new input before result }
{
    let mut output = streaming::make_room(rt, out, before, LONGEST_ANSWER);
    output.answered += 1;
    let asked = request_held(block, input);
    output.put = put_chosen(out, output.put, output.answered, asked, list);
    output
}

// Puts the answer, and answers the place after it. No message is longer than 14 octets.
fn put_chosen(
    out: &mut [u8; 65536],
    at: usize,
    number: u64,
    asked: Result<Request, Unreadable>,
    list: u16,
) -> usize
    requires { at + 65 ≤ 65536 }
    ensures { PutsChosen list number asked out.old at out.new result }
{
    let Ok(request) = asked else {
        return request_lines::put_answer(out, at, number, Answer::Unreadable);
    };
    let mut message = [0; 14];
    match choice::choose(&mut message, request, list) {
        Ok(length) => {
            let answer = Answer::Message(&message[..length]);
            request_lines::put_answer(out, at, number, answer)
        }
        Err(why) => request_lines::put_answer(out, at, number, Answer::Refused(why)),
    }
}

// The receiver's list, in the line that is held.
fn list_held(block: &[u8; 65536], input: Input) -> u16
    requires { SoundInput input }
    ensures { (line : List ℕ) → Line block.now input line → LineLists line result }
{
    if input.long {
        return no_list();
    }
    let from = input.from;
    let end = input.end;
    let Some(list) = request_lines::list_in(&block[from..end]) else {
        return no_list();
    };
    list
}

// The empty list. Says on standard error that the first line is none: it may have been forgotten.
fn no_list() -> u16
    ensures { result ≡ 0 }
{
    io::write_all(
        2,
        b"gad: the first line is no list of shapes, a number below 65536\n",
    );
    0
}

// The request in the line that is held.
fn request_held(block: &[u8; 65536], input: Input) -> Result<Request, Unreadable>
    requires { SoundInput input }
    ensures { (line : List ℕ) → Line block.now input line → LineAsks line result }
{
    if input.long {
        return Err(Unreadable);
    }
    let from = input.from;
    let end = input.end;
    request_lines::request_in(&block[from..end])
}
