// Lists the log on standard input: a line for each frame, and a last line with the number of the unbroken ones. Document 01, "The lister".
#![tactic(auto)]

ghost use Rattle.std.specs.Prelude.{◌≡◌, false, ◌||◌, ◌≤◌, ◌<◌, length};
ghost use Rattle.listing.specs.Steps.{longest_step};
ghost use Rattle.streaming.specs.Sinks.{Wrote};
ghost use Rattle.lister.specs.Holding.{Sound, HeldRefilled, Turned, TurnTaken, found_in, most_frames};
ghost use Rattle.lister.specs.Walking.{Ran};

use streaming::{Sink, Source};

// No log has so many frames: each takes four octets or more.
const MOST_FRAMES: u64 = 4611686018427387904;

// The octets of the buffer from `at` to the end of what was read are not yet listed.
#[derive(Clone, Copy)]
struct Held {
    at: usize,
    // what was read
    source: Source,
    // unbroken frames so far
    unbroken: u64,
    // what was written
    sink: Sink,
    // the last line is put, the output is closed, or a read failed
    ended: bool,
}

fn main(rt: HostRuntime) {
    let mut out = io::large_buffer();
    let mut buf = io::large_buffer();
    run(&rt, &mut out, &mut buf);
}

// A broken frame ends the run, the end of the input, a closed output, and a read that fails. Answers what is held then.
fn run(rt: &HostRuntime, out: &mut [u8], buf: &mut [u8]) -> Held
    requires { longest_step ≤ length out.old }
    ensures { Ran buf.new result }
{
    let source = streaming::unread();
    let sink = streaming::unwritten();
    let mut held = Held {
        at: 0,
        source,
        unbroken: 0,
        sink,
        ended: false,
    };
    while held.unbroken < MOST_FRAMES {
        held = turn(rt, out, buf, held);
        if held.ended {
            return held;
        }
    }
    held
}

// Lists what is held, and reads only where that lists no frame. Each turn comes nearer to the end of the run.
fn turn(rt: &HostRuntime, out: &mut [u8], buf: &mut [u8], held: Held) -> Held
    requires longest_step_in_bounds { longest_step ≤ length out.old }
    requires sound { Sound buf.old held }
    requires unbroken_lt_most_frames { held.unbroken < most_frames }
    requires closed_value { held.sink.closed ≡ false }
    ensures { TurnTaken buf.old out.old out.new buf.new held result }
{
    let listed = list_held(rt, out, buf, held);
    if listed.ended {
        return listed;
    }
    if listed.at != held.at {
        return listed;
    }
    refill(rt, buf, listed)
}

// Lists what is held, as far as out has room, and writes that.
fn list_held(rt: &HostRuntime, out: &mut [u8], buf: &[u8], held: Held) -> Held
    requires sound { Sound buf.now held }
    requires unbroken_lt_most_frames { held.unbroken < most_frames }
    requires closed_value { held.sink.closed ≡ false }
    ensures { Turned buf.now out.old out.new held result }
{
    let at = held.at;
    let source = held.source;
    let fill = streaming::filled(source);
    let last = streaming::is_over(source);
    let listed = listing::list_some(out, &buf[at..fill], last, held.unbroken);
    let put = listed.written;
    let size = out.len();
    let sink = write_listed(rt, &out[..put], buf, held, size);
    let ended = over(listed.ended, streaming::is_closed(sink));
    Held {
        at: at + listed.taken,
        source,
        unbroken: listed.unbroken,
        sink,
        ended,
    }
}

// Writes the text of what is held, for a buffer of that size. The others are here for what it requires alone.
fn write_listed(rt: &HostRuntime, text: &[u8], buf: &[u8], held: Held, size: usize) -> Sink
    requires text_value { text.now ≡ (found_in size buf.now held).text }
    requires closed_value { held.sink.closed ≡ false }
    ensures { Wrote text.now held.sink result }
{
    streaming::write_text(rt, text, held.sink)
}

// The text ended the run, or the output is closed.
fn over(ended: bool, closed: bool) -> bool
    ensures { result ≡ (ended || closed) }
{
    if ended {
        return true;
    }
    closed
}

// Reads once, behind what is held. A read that fails ends the run.
fn refill(rt: &HostRuntime, buf: &mut [u8], held: Held) -> Held
    requires { Sound buf.old held }
    ensures { HeldRefilled buf.old buf.new held result }
{
    let before = held.source;
    let sink = held.sink;
    let more = streaming::read_more(rt, buf, held.at, before);
    let ended = streaming::is_failed(more);
    Held {
        at: 0,
        source: more,
        unbroken: held.unbroken,
        sink,
        ended,
    }
}
