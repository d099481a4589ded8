// The frames of a log, one at a time. Document 01, "The lister".
#![tactic(auto)]

ghost use Rattle.std.specs.Prelude.{◌≡◌, ◌<◌};
ghost use Rattle.frames.specs.Frames.{frame_of, head_sound};

// What stands at the start of some octets.
#[derive(Clone, Copy)]
pub enum Frame {
    // An unbroken frame: its message is the `size` octets after the first four.
    Whole { kind: u8, size: usize },
    Broken,
    // Too few octets to tell.
    More,
    // Nothing is left.
    End,
}

// The frame at the start of s. `last`: nothing follows s.
pub fn next_frame(s: &[u8], last: bool) -> Frame
    ensures { result ≡ frame_of last s.now }
{
    if s.len() < 4 {
        if !last {
            return Frame::More;
        }
        if s.len() == 0 {
            return Frame::End;
        }
        return Frame::Broken;
    }
    let length = 256 * wide(s[0]) + wide(s[1]);
    let kind = s[3];
    if !head_sound(length, s[2], kind) {
        return Frame::Broken;
    }
    let size = length - 2;
    if size <= s.len() - 4 {
        return Frame::Whole { kind, size };
    }
    if last { Frame::Broken } else { Frame::More }
}

// Whether an unbroken frame may have this length, version and kind.
fn head_sound(length: usize, version: u8, kind: u8) -> bool
    ensures { result ≡ head_sound length version kind }
{
    2 <= length && length <= 93 && version == 1 && kind <= 1
}

fn wide(octet: u8) -> usize
    ensures { (result ≡ octet) × (result < 256) }
{
    octet as usize
}
