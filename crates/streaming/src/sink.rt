// What was written to standard output. Its fields are private: that octets were written, only a write can say.
ghost use Rattle.std.specs.Prelude.{◌≡◌, ◌≤◌, false, length};
ghost use Rattle.streaming.specs.Sinks.{unwritten_yet, Wrote, WroteSome};

use crate::calls;
use std::io::{Error, Print};

#[derive(Clone, Copy)]
pub struct Sink {
    // how many octets were written, modulo 2^64
    written: u64,
    // a write failed: the output is closed
    closed: bool,
}

pub fn unwritten() -> Sink
    ensures { result ≡ unwritten_yet }
{
    Sink {
        written: 0,
        closed: false,
    }
}

pub fn is_closed(sink: Sink) -> bool
    ensures { result ≡ sink.closed }
{
    sink.closed
}

// Writes the text. Of one that is not written whole nothing is counted, and why is said on standard error.
pub fn write_text(rt: &HostRuntime, text: &[u8], sink: Sink) -> Sink
    requires { sink.closed ≡ false }
    ensures { Wrote text.now sink result }
{
    if let Err(error) = write_whole(rt, text) {
        calls::fail(rt, "gad: standard output", error);
        return Sink {
            written: sink.written,
            closed: true,
        };
    }
    Sink {
        written: sink.written.wrapping_add(text.len() as u64),
        closed: false,
    }
}

// Writes what is left until nothing is, however much the system takes at a time.
fn write_whole(rt: &HostRuntime, text: &[u8]) -> Result<(), Error> {
    let mut done = 0;
    for _ in 0..calls::MOST_TRIES {
        if done == text.len() {
            return Ok(());
        }
        done = write_some(rt, text, done)?;
    }
    Err(calls::cut_short())
}

// Writes once, from `done` on, and answers the place up to which the text is written.
fn write_some(rt: &HostRuntime, text: &[u8], done: usize) -> Result<usize, Error>
    requires { done ≤ length text.now }
    ensures { WroteSome (length text.now) result }
{
    let error = match rt.stdout().write_some(&text[done..]) {
        Ok(0) => calls::nothing_taken(),
        Ok(put) => return Ok(done + put),
        Err(error) => error,
    };
    if calls::again(error) {
        return Ok(done);
    }
    Err(error)
}
