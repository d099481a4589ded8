// A velocity's quantities, as a shape's.
ghost use Rattle.std.specs.Prelude.{◌≡◌};
ghost use Rattle.quantities.specs.Velocities.{no_velocity};

use ground::{MetresPerHour, Millidegrees, SignedMetresPerHour};
use layout::VelocityKind;

#[derive(Clone, Copy)]
pub struct VelocityQuantities {
    pub kind: VelocityKind,
    pub bearing: Millidegrees,
    pub horizontal_speed: MetresPerHour,
    pub vertical_speed: SignedMetresPerHour,
    pub uncertainty: Option<MetresPerHour>,
    pub vertical_uncertainty: Option<MetresPerHour>,
}

// The quantities of no velocity.
pub fn no_velocity() -> VelocityQuantities
    ensures { result ≡ no_velocity }
{
    VelocityQuantities {
        kind: VelocityKind::Nothing,
        bearing: Millidegrees(0),
        horizontal_speed: MetresPerHour(0),
        vertical_speed: SignedMetresPerHour(0),
        uncertainty: Some(MetresPerHour(0)),
        vertical_uncertainty: Some(MetresPerHour(0)),
    }
}
