// Which quantities a kind of velocity uses, and whether the others are zero.
ghost use Rattle.std.specs.Prelude.{◌≡◌};
ghost use Rattle.ground.specs.Answers.{Decides};
ghost use Rattle.fields.specs.Fields as field;
ghost use Rattle.quantities.specs.Places.{zero_quantity};
ghost use Rattle.records.specs.VelocityUnused.{MotionRestZero, motion_uses_of};

use ground::MetresPerHour;
use layout::VelocityKind;
use quantities::VelocityQuantities;

// Whether a kind uses what not every velocity has.
#[derive(Clone, Copy)]
pub struct MotionUses {
    pub vertical_speed: bool,
    pub uncertainty: bool,
    pub vertical_uncertainty: bool,
}

// Whether what the kind doesn't use is zero.
pub fn is_zero(quantities: VelocityQuantities) -> bool
    ensures { Decides result (MotionRestZero quantities) }
{
    let uses = motion_uses(quantities.kind);
    if !uses.vertical_speed && quantities.vertical_speed.0 != 0 {
        return false;
    }
    if !uses.uncertainty && !is_given_zero(quantities.uncertainty) {
        return false;
    }
    uses.vertical_uncertainty || is_given_zero(quantities.vertical_uncertainty)
}

fn is_given_zero(uncertainty: Option<MetresPerHour>) -> bool
    ensures { Decides result (uncertainty ≡ zero_quantity field.uncertainty_speed) }
{
    matches!(uncertainty, Some(MetresPerHour(0)))
}

fn motion_uses(kind: VelocityKind) -> MotionUses
    ensures { result ≡ motion_uses_of kind }
{
    match kind {
        VelocityKind::Nothing | VelocityKind::Horizontal => used(false, false, false),
        VelocityKind::HorizontalVertical => used(true, false, false),
        VelocityKind::HorizontalUncertain => used(false, true, false),
        VelocityKind::HorizontalVerticalUncertain => used(true, true, true),
    }
}

fn used(vertical_speed: bool, uncertainty: bool, vertical_uncertainty: bool) -> MotionUses
    ensures { result ≡ record { vertical_speed = vertical_speed; uncertainty = uncertainty; vertical_uncertainty = vertical_uncertainty } }
{
    MotionUses {
        vertical_speed,
        uncertainty,
        vertical_uncertainty,
    }
}
