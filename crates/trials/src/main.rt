// Calls the library over stored cases, a line each: a verb, how many places the array has that is filled, and the numbers that are given
// (`-` for a missing one; the first of `choose` is the list, of `code` and `report` the field). Prints the line's number, what the call
// handed back, and the array, whose places were all 170 before. tests/trials.py works out what must be printed.
#![tactic(auto)]

mod calls;
mod given;
mod print;
mod verb;

ghost use Rattle.std.specs.Prelude.{◌≡◌, length};
ghost use Rattle.streaming.specs.Inputs.{SoundInput};

use streaming::Input;

// Prints an answer for each line, and answers how many there were.
fn take_lines(rt: &HostRuntime, block: &mut [u8; 65536]) -> u64 {
    let mut input = streaming::no_input();
    for lines in 0..u64::MAX {
        input = streaming::read_line(rt, block, input);
        if !input.ready {
            return lines;
        }
        io::print_decimal(1, lines + 1);
        take_line(block, input);
        io::write_all(1, b"\n");
    }
    u64::MAX
}

fn take_line(block: &[u8; 65536], input: Input)
    requires { SoundInput input }
{
    if input.long {
        return;
    }
    let from = input.from;
    let end = input.end;
    take_case(&block[from..end]);
}

fn take_case(line: &[u8]) {
    let end = text::field_end(line, 0);
    if end == line.len() {
        return;
    }
    if let Some(verb) = verb::named(&line[..end]) {
        calls::call(verb, given::numbers_in(&line[end + 1..]));
    }
}

fn main(rt: HostRuntime) {
    let mut block = io::large_buffer();
    let lines = take_lines(&rt, &mut block);
    io::write_all(1, b"end ");
    io::print_decimal(1, lines);
    io::write_all(1, b"\n");
}
