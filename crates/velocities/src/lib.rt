// Octets to a velocity's record, and a record to octets: document 01, "Octet layouts" and "Refusal numbers".
#![tactic(auto)]

mod answers;
mod kinds;

ghost use Rattle.ground.specs.Answers.{outcome_number};
ghost use Rattle.layout.specs.Rows.{length_of};
ghost use Rattle.layout.specs.Velocities.{ReadsVelocity, WritesVelocity};
ghost use Rattle.velocity_octets.specs.VelocityOctets.{velocity_rows_of};
ghost use Rattle.velocities.specs.Writing.{VelocityAnswer};

pub use answers::of_message;
use ground::Refusal;
use layout::{Velocity, VelocityKind};

// The record in a message, or the refusal. Each octet is looked at once, and 5 is judged on the record.
pub fn read_velocity(s: &[u8]) -> Result<Velocity, Refusal>
    ensures { ReadsVelocity s.now result }
{
    if s.len() == 0 {
        return Err(Refusal::NoOctets);
    }
    let first = octets::octet(s, 0);
    let kind = VelocityKind::from(first / 16);
    answers::of_message(s.len(), kind)?;
    let velocity = velocity_octets::velocity(s, kind, first);
    if 360 <= velocity.bearing.0 {
        return Err(Refusal::AngleCode);
    }
    Ok(velocity)
}

// Writes the record's message into the first octets of the buffer, or refuses the record and leaves the buffer as it is.
pub fn write_velocity(out: &mut [u8], velocity: Velocity) -> Result<usize, Refusal>
    ensures { WritesVelocity velocity out.old out.new result }
{
    let kind = velocity.kind;
    let room = out.len();
    answers::of_record(velocity, room)?;
    velocity_octets::store_velocity(out, velocity);
    Ok(kinds::length_of(kind))
}

// What writing the record answers, given room for its message.
pub fn velocity_outcome(velocity: Velocity) -> Result<(), Refusal>
    ensures { VelocityAnswer velocity (length_of (velocity_rows_of velocity)) (outcome_number result) }
{
    let kind = velocity.kind;
    let room = kinds::length_of(kind);
    answers::of_record(velocity, room)
}
