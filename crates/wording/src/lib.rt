// The text of a message, put into a lent buffer: document 01, "The lister".
#![tactic(auto)]

mod numbers;
mod shape_text;
mod velocity_text;

ghost use Rattle.std.specs.Prelude.{◌+◌, ◌≤◌, length};
ghost use Rattle.text.specs.Text.{PutsWithin};
ghost use Rattle.wording.specs.Wording.{message_text};

// Puts the answer to a message of a kind, 0 shape, else velocity, and, on 0, its type and its quantities.
pub fn put_message(out: &mut [u8], at: usize, kind: u8, m: &[u8]) -> usize
    requires { at + 680 ≤ length out.old }
    ensures { PutsWithin 680 out.old at (message_text kind m.now) out.new result }
{
    if kind == 0 {
        return put_shape(out, at, m);
    }
    put_velocity(out, at, m)
}

fn put_shape(out: &mut [u8], at: usize, m: &[u8]) -> usize
    requires { at + 680 ≤ length out.old }
    ensures { PutsWithin 680 out.old at (message_text 0 m.now) out.new result }
{
    match reading::read_shape(m) {
        Ok(shape) => shape_text::put_shape(out, at, shape),
        Err(why) => text::put_decimal(out, at, u64::from(why)),
    }
}

fn put_velocity(out: &mut [u8], at: usize, m: &[u8]) -> usize
    requires { at + 680 ≤ length out.old }
    ensures { PutsWithin 680 out.old at (message_text 1 m.now) out.new result }
{
    match velocities::read_velocity(m) {
        Ok(velocity) => velocity_text::put_velocity(out, at, velocity),
        Err(why) => text::put_decimal(out, at, u64::from(why)),
    }
}
