// The seven elements of a velocity's codes: type, bearing, horizontal speed, D, vertical speed, uncertainty, vertical uncertainty.
ghost use Rattle.std.specs.Prelude.{◌≡◌, ◌++◌, ◌≤◌, length, drop};
ghost use Rattle.ground.specs.Answers.{Decides};
ghost use Rattle.code_arrays.specs.Velocities.{velocity_elements, held_velocity, WholeVelocity};

use crate::code_numbers;
use ground::{BearingCode, HorizontalSpeedCode, UncertaintySpeedCode, VerticalSpeedCode};
use layout::{Velocity, VelocityKind};

// Puts the elements of a record into the first of the array.
pub fn put_velocity(out: &mut [u32], velocity: Velocity)
    requires { 7 ≤ length out.old }
    ensures { out.new ≡ velocity_elements velocity ++ drop 7 out.old }
{
    let kind = velocity.kind;
    let type_number = u8::from(kind);
    out[0] = type_number as u32;
    out[1] = velocity.bearing.0 as u32;
    out[2] = velocity.horizontal_speed.0 as u32;
    out[3] = code_numbers::bit(velocity.vertical_speed.0);
    out[4] = velocity.vertical_speed.1 as u32;
    out[5] = velocity.uncertainty.0 as u32;
    out[6] = velocity.vertical_uncertainty.0 as u32;
}

// The record of the elements. A number that its code's type can't hold is taken as the largest that it holds.
pub fn velocity_in(codes: &[u32]) -> Velocity
    requires { 7 ≤ length codes.now }
    ensures { result ≡ held_velocity codes.now }
{
    let kind = VelocityKind::from(code_numbers::capped_octet(codes[0]));
    Velocity {
        kind,
        bearing: BearingCode(code_numbers::capped_word(codes[1])),
        horizontal_speed: HorizontalSpeedCode(code_numbers::capped_word(codes[2])),
        vertical_speed: VerticalSpeedCode(codes[3] == 1, code_numbers::capped_octet(codes[4])),
        uncertainty: UncertaintySpeedCode(code_numbers::capped_octet(codes[5])),
        vertical_uncertainty: UncertaintySpeedCode(code_numbers::capped_octet(codes[6])),
    }
}

// Whether each number is one that its code's type holds.
pub fn velocity_is_whole(codes: &[u32]) -> bool
    requires { 7 ≤ length codes.now }
    ensures { Decides result (WholeVelocity codes.now) }
{
    codes[1] <= 65535
        && codes[2] <= 65535
        && codes[3] <= 1
        && codes[4] <= 255
        && codes[5] <= 255
        && codes[6] <= 255
}
