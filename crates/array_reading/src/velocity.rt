// A velocity.
ghost use Rattle.array_reading.specs.Reading.{ReadsMotionInto};

use ground::Refusal;

// As for a shape, by way of a record.
pub fn read_velocity(codes: &mut [u32], s: &[u8]) -> Result<(), Refusal>
    ensures { ReadsMotionInto s.now codes.old codes.new result }
{
    let velocity = velocities::read_velocity(s)?;
    if codes.len() < 7 {
        return Err(Refusal::BufferTooShort);
    }
    code_arrays::put_velocity(codes, velocity);
    Ok(())
}
