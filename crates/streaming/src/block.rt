// Room for the next read.
ghost use Rattle.std.specs.Prelude.{◌≤◌, length};
ghost use Rattle.streaming.specs.Blocks.{Shifted};

// Moves the octets from at to fill to the buffer's start.
pub fn shift(buf: &mut [u8], at: usize, fill: usize)
    requires { (at ≤ fill) × (fill ≤ length buf.old) }
    ensures { Shifted buf.old at fill buf.new }
{
    buf.copy_within(at..fill, 0);
}
