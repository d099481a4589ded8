// The record in a message of a kind, whose length is the kind's; `first` is its first octet.
ghost use Rattle.std.specs.Prelude.{◌≡◌, ◌≤◌, length};
ghost use Rattle.octets.specs.Bits.{bits};
ghost use Rattle.velocity_octets.specs.VelocityOctets.{VelocityOfLength, velocity_of_kind, motion_of, vertical_of};

use ground::{BearingCode, HorizontalSpeedCode, UncertaintySpeedCode, VerticalSpeedCode};
use layout::{Velocity, VelocityKind};

pub fn velocity(s: &[u8], kind: VelocityKind, first: u8) -> Velocity
    requires first_value { first ≡ bits s.now 0 8 }
    requires velocity_of_length { VelocityOfLength kind s.now }
    ensures { result ≡ velocity_of_kind kind s.now }
{
    match kind {
        VelocityKind::Nothing => layout::blank_velocity(VelocityKind::Nothing),
        VelocityKind::Horizontal => motion(s, VelocityKind::Horizontal, first),
        VelocityKind::HorizontalVertical => vertical(s, VelocityKind::HorizontalVertical, first),
        VelocityKind::HorizontalUncertain => {
            let mut velocity = motion(s, VelocityKind::HorizontalUncertain, first);
            let uncertainty = UncertaintySpeedCode(octets::octet(s, 4));
            velocity.uncertainty = uncertainty;
            velocity
        }
        VelocityKind::HorizontalVerticalUncertain => {
            let mut velocity = vertical(s, VelocityKind::HorizontalVerticalUncertain, first);
            let uncertainty = UncertaintySpeedCode(octets::octet(s, 5));
            let vertical_uncertainty = UncertaintySpeedCode(octets::octet(s, 6));
            velocity.uncertainty = uncertainty;
            velocity.vertical_uncertainty = vertical_uncertainty;
            velocity
        }
    }
}

// The bearing, in bit 1 of the first octet and the second, and the horizontal speed, which every velocity has.
fn motion(s: &[u8], kind: VelocityKind, first: u8) -> Velocity
    requires first_value { first ≡ bits s.now 0 8 }
    requires in_bounds { 4 ≤ length s.now }
    ensures { result ≡ motion_of kind s.now }
{
    let mut velocity = layout::blank_velocity(kind);
    let high = (first % 2) as u16;
    let low = octets::octet(s, 1) as u16;
    let code = high * 256 + low;
    let bearing = BearingCode(code);
    let horizontal_speed = HorizontalSpeedCode(octets::word(s, 2));
    velocity.bearing = bearing;
    velocity.horizontal_speed = horizontal_speed;
    velocity
}

// Those and the vertical speed, D in bit 2 of the first octet.
fn vertical(s: &[u8], kind: VelocityKind, first: u8) -> Velocity
    requires first_value { first ≡ bits s.now 0 8 }
    requires in_bounds { 5 ≤ length s.now }
    ensures { result ≡ vertical_of kind s.now }
{
    let mut velocity = motion(s, kind, first);
    let down = first / 2 % 2 == 1;
    let vertical_speed = VerticalSpeedCode(down, octets::octet(s, 4));
    velocity.vertical_speed = vertical_speed;
    velocity
}
