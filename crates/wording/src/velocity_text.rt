// The text of a velocity that the writer takes, put into a lent buffer: document 01, "The lister".
ghost use Rattle.std.specs.Prelude.{◌≡◌, ◌+◌, ◌≤◌, length};
ghost use Rattle.text.specs.Text.{PutsWithin};
ghost use Rattle.fields.specs.Fields as field;
ghost use Rattle.quantities.specs.Velocities.{TakesVelocity};
ghost use Rattle.wording.specs.Numbers.{code_text};
ghost use Rattle.wording.specs.VelocityTexts.{velocity_text, motion_rest};

use crate::numbers;
use ground::{UncertaintySpeedCode, Whole};
use layout::{Velocity, VelocityKind};

pub fn put_velocity(out: &mut [u8], at: usize, velocity: Velocity) -> usize
    requires at_in_bounds { at + 680 ≤ length out.old }
    requires takes_velocity { TakesVelocity velocity }
    ensures { PutsWithin 680 out.old at (velocity_text velocity) out.new result }
{
    let kind = velocity.kind;
    let a = numbers::put_head(out, at, u8::from(kind));
    let b = numbers::put_natural(out, a, field_reports::bearing(velocity.bearing).0);
    let c = numbers::put_natural(
        out,
        b,
        speeds::reported_horizontal_speed(velocity.horizontal_speed).0,
    );
    put_rest(out, c, velocity)
}

// Puts what the kind has after the bearing and the horizontal speed.
fn put_rest(out: &mut [u8], at: usize, velocity: Velocity) -> usize
    requires { at + 63 ≤ length out.old }
    ensures { PutsWithin 63 out.old at (motion_rest velocity.kind velocity) out.new result }
{
    let kind = velocity.kind;
    let vertical = Whole(speeds::reported_vertical_speed(velocity.vertical_speed).0 as i64);
    match kind {
        VelocityKind::Nothing => at,
        VelocityKind::Horizontal => at,
        VelocityKind::HorizontalVertical => numbers::put_signed(out, at, vertical),
        VelocityKind::HorizontalUncertain => put_uncertainty(out, at, velocity.uncertainty),
        VelocityKind::HorizontalVerticalUncertain => {
            let a = numbers::put_signed(out, at, vertical);
            let b = put_uncertainty(out, a, velocity.uncertainty);
            put_uncertainty(out, b, velocity.vertical_uncertainty)
        }
    }
}

// Puts what is reported of the code, or the mark of a missing quantity.
fn put_uncertainty(out: &mut [u8], at: usize, code: UncertaintySpeedCode) -> usize
    requires { at + 21 ≤ length out.old }
    ensures { PutsWithin 21 out.old at (code_text field.uncertainty_speed code) out.new result }
{
    match speeds::reported_uncertainty_speed(code) {
        Some(speed) => numbers::put_natural(out, at, speed.0),
        None => text::put_bytes(out, at, b" -"),
    }
}
