// A velocity's record, as a shape's.
ghost use Rattle.std.specs.Prelude.{◌≡◌};
ghost use Rattle.layout.specs.Layout.{velocity_type_of};
ghost use Rattle.layout.specs.Velocities.{blank_velocity, velocity_kind_of};

use ground::{BearingCode, HorizontalSpeedCode, UncertaintySpeedCode, VerticalSpeedCode};

#[derive(Clone, Copy)]
pub enum VelocityKind {
    // of a number that no velocity's type has
    Nothing,
    Horizontal,
    HorizontalVertical,
    HorizontalUncertain,
    HorizontalVerticalUncertain,
}

#[derive(Clone, Copy)]
pub struct Velocity {
    pub kind: VelocityKind,
    pub bearing: BearingCode,
    pub horizontal_speed: HorizontalSpeedCode,
    pub vertical_speed: VerticalSpeedCode,
    pub uncertainty: UncertaintySpeedCode,
    pub vertical_uncertainty: UncertaintySpeedCode,
}

// The record of that kind in which every code is zero.
pub fn blank_velocity(kind: VelocityKind) -> Velocity
    ensures { result ≡ blank_velocity kind }
{
    Velocity {
        kind,
        bearing: BearingCode(0),
        horizontal_speed: HorizontalSpeedCode(0),
        vertical_speed: VerticalSpeedCode(false, 0),
        uncertainty: UncertaintySpeedCode(0),
        vertical_uncertainty: UncertaintySpeedCode(0),
    }
}

// The kind of a type's number.
impl From<u8> for VelocityKind {
    ghost from_gives = { λ number kind. kind ≡ velocity_kind_of number };

    fn from(number: u8) -> VelocityKind {
        match number {
            0 => VelocityKind::Horizontal,
            1 => VelocityKind::HorizontalVertical,
            2 => VelocityKind::HorizontalUncertain,
            3 => VelocityKind::HorizontalVerticalUncertain,
            _ => VelocityKind::Nothing,
        }
    }
}

// The type's number.
impl From<VelocityKind> for u8 {
    ghost from_gives = { λ kind number. number ≡ velocity_type_of kind };

    fn from(kind: VelocityKind) -> u8 {
        match kind {
            VelocityKind::Nothing => 0,
            VelocityKind::Horizontal => 0,
            VelocityKind::HorizontalVertical => 1,
            VelocityKind::HorizontalUncertain => 2,
            VelocityKind::HorizontalVerticalUncertain => 3,
        }
    }
}
