// Whether octets have the form of a message of a kind, and whether a record is one that can be written.
ghost use Rattle.std.specs.Prelude.{◌<◌};
ghost use Rattle.ground.specs.Answers.{outcome_number, Decides};
ghost use Rattle.layout.specs.Layout.{velocity_rows};
ghost use Rattle.layout.specs.Rows.{length_of};
ghost use Rattle.layout.specs.Demands.{TypeKnown};
ghost use Rattle.velocities.specs.Reading.{VelocityFormAnswer};
ghost use Rattle.velocity_octets.specs.VelocityOctets.{velocity_rows_of, VelocityInFields};
ghost use Rattle.velocities.specs.Writing.{VelocityAnswer, AreZero};

use crate::kinds;
use ground::Refusal;
use layout::{Velocity, VelocityKind};

// 2 and 3, of so many octets.
pub fn of_message(length: usize, kind: VelocityKind) -> Result<(), Refusal>
    ensures { VelocityFormAnswer kind length (outcome_number result) }
{
    let whole = kinds::length_of(kind);
    if whole == 0 {
        return Err(Refusal::UnknownType);
    }
    if length != whole {
        return Err(Refusal::WrongLength);
    }
    Ok(())
}

// 2, 5, 7 and 10, of so much room.
pub fn of_record(velocity: Velocity, room: usize) -> Result<(), Refusal>
    ensures { VelocityAnswer velocity room (outcome_number result) }
{
    let kind = velocity.kind;
    let length = kinds::length_of(kind);
    if length == 0 {
        return Err(Refusal::UnknownType);
    }
    if 360 <= velocity.bearing.0 {
        return Err(Refusal::AngleCode);
    }
    if !in_fields(velocity) {
        return Err(Refusal::OutOfRange);
    }
    if room < length {
        return Err(Refusal::BufferTooShort);
    }
    Ok(())
}

// Whether what the kind has no field for is zero. Its own fields hold every code of their types, and every bearing below 360.
fn in_fields(velocity: Velocity) -> bool
    requires type_known { TypeKnown (velocity_rows_of velocity) }
    requires bearing_bound { velocity.bearing.0 < 360 }
    ensures { Decides result (VelocityInFields velocity) }
{
    let kind = velocity.kind;
    let down = velocity.vertical_speed.0;
    let vertical = velocity.vertical_speed.1;
    let uncertainty = velocity.uncertainty.0;
    let vertical_uncertainty = velocity.vertical_uncertainty.0;
    match kind {
        VelocityKind::Nothing => false,
        VelocityKind::Horizontal => are_zero(down, vertical, uncertainty, vertical_uncertainty),
        VelocityKind::HorizontalVertical => are_zero(false, 0, uncertainty, vertical_uncertainty),
        VelocityKind::HorizontalUncertain => are_zero(down, vertical, 0, vertical_uncertainty),
        VelocityKind::HorizontalVerticalUncertain => true,
    }
}

fn are_zero(down: bool, vertical: u8, uncertainty: u8, vertical_uncertainty: u8) -> bool
    ensures { Decides result (AreZero down vertical uncertainty vertical_uncertainty) }
{
    !down && vertical == 0 && uncertainty == 0 && vertical_uncertainty == 0
}
