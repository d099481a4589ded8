// What was read of standard input. Its fields are private: that octets came, that the input is over or that a read failed, only a
// read can say.
ghost use Rattle.std.specs.Prelude.{◌≡◌, ◌≤◌, is_err, length};
ghost use Rattle.streaming.specs.Sources.{brought, unread_yet, ReadBehind, ReadMore};

use crate::{block, calls};
use std::io::{Error, Read};

#[derive(Clone, Copy)]
pub struct Source {
    // the octets of the buffer before `fill` are read
    fill: usize,
    // a read gave nothing: nothing is left to read
    over: bool,
    // a read failed, which was said on standard error: nothing more is read
    failed: bool,
}

pub fn unread() -> Source
    ensures { result ≡ unread_yet }
{
    Source {
        fill: 0,
        over: false,
        failed: false,
    }
}

pub fn filled(source: Source) -> usize
    ensures { result ≡ source.fill }
{
    source.fill
}

pub fn is_over(source: Source) -> bool
    ensures { result ≡ source.over }
{
    source.over
}

pub fn is_failed(source: Source) -> bool
    ensures { result ≡ source.failed }
{
    source.failed
}

// Moves the octets from `at` on to the start, and reads once, behind them.
pub fn read_more(rt: &HostRuntime, buf: &mut [u8], at: usize, source: Source) -> Source
    requires { (at ≤ source.fill) × (source.fill ≤ length buf.old) }
    ensures { ReadMore buf.old buf.new at source result }
{
    let fill = source.fill;
    block::shift(buf, at, fill);
    let kept = fill - at;
    let (more, failed) = told(rt, read_behind(rt, buf, kept));
    Source {
        fill: kept + more,
        over: more == 0,
        failed,
    }
}

// How many octets a read brought, and whether it failed, which is said on standard error.
fn told(rt: &HostRuntime, read: Result<usize, Error>) -> (usize, bool)
    ensures { result ≡ (brought read, is_err read) }
{
    match read {
        Ok(octets) => (octets, false),
        Err(error) => {
            calls::fail(rt, "gad: standard input", error);
            (0, true)
        }
    }
}

// Reads once, behind so many octets, and answers how many came.
fn read_behind(rt: &HostRuntime, buf: &mut [u8], kept: usize) -> Result<usize, Error>
    requires { kept ≤ length buf.old }
    ensures { ReadBehind kept buf.old buf.new result }
{
    for _ in 0..calls::MOST_TRIES {
        match rt.stdin().read(&mut buf[kept..]) {
            Ok(octets) => return Ok(octets),
            Err(error) => {
                if !calls::again(error) {
                    return Err(error);
                }
            }
        }
    }
    Err(calls::cut_short())
}
