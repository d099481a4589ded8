// The listing of a log that comes in pieces: a line for each frame, and a last line with their number. Document 01, "The lister".
#![tactic(auto)]

mod steps;

ghost use Rattle.std.specs.Prelude.{◌≡◌, ◌+◌, ◌<◌, ◌^◌, length};
ghost use Rattle.listing.specs.Streaming.{Lists, ends_run};

use frames::Frame;

// No frame's text, with the end line behind a broken one, takes more octets.
const LONGEST_STEP: usize = 800;

#[derive(Clone, Copy)]
pub struct Listed {
    // octets of the input that are listed, and not to be given again
    pub taken: usize,
    // octets of out that hold the text
    pub written: usize,
    // unbroken frames so far
    pub unbroken: u64,
    // the last line is put
    pub ended: bool,
}

// Lists the frames of input, after some unbroken ones, as long as out has room for the longest step. `last`: nothing follows input.
pub fn list_some(out: &mut [u8], input: &[u8], last: bool, unbroken: u64) -> Listed
    requires { unbroken + length input.now + 1 < 2 ^ 64 }
    ensures { Lists last unbroken input.now out.old out.new result }
{
    let mut taken: usize = 0;
    let mut written: usize = 0;
    let mut count = unbroken;
    while LONGEST_STEP <= out.len() - written {
        let rest = &input[taken..];
        let frame = frames::next_frame(rest, last);
        written = steps::put_step(out, written, frame, rest, count);
        let Frame::Whole { kind: _, size } = frame else {
            return Listed {
                taken,
                written,
                unbroken: count,
                ended: ends_run(frame),
            };
        };
        taken = taken + (4 + size);
        count = count + 1;
    }
    Listed {
        taken,
        written,
        unbroken: count,
        ended: false,
    }
}

fn ends_run(frame: Frame) -> bool
    ensures { result ≡ ends_run frame }
{
    match frame {
        Frame::Whole { kind: _, size: _ } => false,
        Frame::Broken => true,
        Frame::More => false,
        Frame::End => true,
    }
}
