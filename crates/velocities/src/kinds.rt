// The lengths of kinds.
ghost use Rattle.std.specs.Prelude.{◌≡◌};
ghost use Rattle.layout.specs.Layout.{velocity_rows};
ghost use Rattle.layout.specs.Rows.{length_of};

use layout::VelocityKind;

// The length of a kind's message.
pub fn length_of(kind: VelocityKind) -> usize
    ensures { result ≡ length_of (velocity_rows kind) }
{
    match kind {
        VelocityKind::Nothing => 0,
        VelocityKind::Horizontal => 4,
        VelocityKind::HorizontalVertical => 5,
        VelocityKind::HorizontalUncertain => 5,
        VelocityKind::HorizontalVerticalUncertain => 7,
    }
}
