// The six elements of a velocity's quantities: type, bearing, horizontal speed, vertical speed, uncertainty, vertical uncertainty.
ghost use Rattle.std.specs.Prelude.{◌≡◌, ◌++◌, ◌≤◌, length, drop};
ghost use Rattle.ground.specs.Answers.{Decides};
ghost use Rattle.quantity_arrays.specs.Velocities.{velocity_quantity_elements, velocity_quantities_in, VelocityArrives};

use crate::numbers;
use code_arrays::Narrow;
use ground::{MetresPerHour, Millidegrees, SignedMetresPerHour, Whole};
use layout::VelocityKind;
use quantities::VelocityQuantities;

// Puts the elements of quantities into the first of the array.
pub fn put_velocity_quantities(out: &mut [i64], quantities: VelocityQuantities)
    requires { 6 ≤ length out.old }
    ensures { out.new ≡ velocity_quantity_elements quantities ++ drop 6 out.old }
{
    let all = elements_of(quantities);
    code_arrays::put_quantities(out, &all);
}

fn elements_of(quantities: VelocityQuantities) -> [i64; 6]
    ensures { result ≡ velocity_quantity_elements quantities }
{
    let kind = quantities.kind;
    let type_number = u8::from(kind);
    let vertical = quantities.vertical_speed.0;
    let uncertainty = quantities.uncertainty;
    let vertical_uncertainty = quantities.vertical_uncertainty;
    [
        code_arrays::wide(type_number as u32).0,
        code_arrays::wide(quantities.bearing.0).0,
        code_arrays::wide(quantities.horizontal_speed.0).0,
        code_arrays::wide_signed(Narrow(vertical)).0,
        numbers::uncertainty_speed_element(uncertainty).0,
        numbers::uncertainty_speed_element(vertical_uncertainty).0,
    ]
}

// The quantities of the elements.
pub fn velocity_quantities_in(given: &[i64]) -> VelocityQuantities
    requires { 6 ≤ length given.now }
    ensures { result ≡ velocity_quantities_in given.now }
{
    let kind = VelocityKind::from(numbers::octet(Whole(given[0])));
    let vertical = code_arrays::signed(Whole(given[3]));
    let uncertainty = numbers::uncertainty_speed(Whole(given[4]));
    let vertical_uncertainty = numbers::uncertainty_speed(Whole(given[5]));
    VelocityQuantities {
        kind,
        bearing: Millidegrees(code_arrays::natural(Whole(given[1]))),
        horizontal_speed: MetresPerHour(code_arrays::natural(Whole(given[2]))),
        vertical_speed: SignedMetresPerHour(vertical.0),
        uncertainty,
        vertical_uncertainty,
    }
}

// Whether the quantities are of the widths in which they arrive.
pub fn velocity_arrives(given: &[i64]) -> bool
    requires { 6 ≤ length given.now }
    ensures { Decides result (VelocityArrives given.now) }
{
    code_arrays::is_natural(Whole(given[1]))
        && code_arrays::is_natural(Whole(given[2]))
        && code_arrays::is_signed(Whole(given[3]))
        && numbers::is_optional(Whole(given[4]))
        && numbers::is_optional(Whole(given[5]))
}
