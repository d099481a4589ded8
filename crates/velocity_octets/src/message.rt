// The message of a record that can be written.
ghost use Rattle.std.specs.Prelude.{◌≡◌, [], ◌∷◌, ◌++◌, ◌<◌, ◌≤◌, length};
ghost use Rattle.std.proofs.lemmas.List.Edits.{sets};
ghost use Rattle.velocity_octets.specs.VelocityOctets.{VelocityStorable, Stored, first_number, front};

use layout::{Velocity, VelocityKind};

// Stores the message.
pub fn store_velocity(out: &mut [u8], velocity: Velocity)
    requires { VelocityStorable velocity (length out.old) }
    ensures { Stored velocity out.old out.new }
{
    let kind = velocity.kind;
    let type_number = u8::from(kind);
    let first = first_word(
        type_number as u16,
        velocity.vertical_speed.0,
        velocity.bearing.0,
    );
    let speed = velocity.horizontal_speed.0;
    let vertical = velocity.vertical_speed.1;
    let uncertainty = velocity.uncertainty.0;
    let vertical_uncertainty = velocity.vertical_uncertainty.0;
    match kind {
        VelocityKind::Nothing => {}
        VelocityKind::Horizontal => put_four(out, first, speed),
        VelocityKind::HorizontalVertical => put_five(out, first, speed, vertical),
        VelocityKind::HorizontalUncertain => put_five(out, first, speed, uncertainty),
        VelocityKind::HorizontalVerticalUncertain => {
            put_seven(
                out,
                first,
                speed,
                vertical,
                uncertainty,
                vertical_uncertainty,
            );
        }
    }
}

// The number of the first two octets. The first is the type, D, which is zero in a kind that has none, and the bearing's
// high bit.
fn first_word(type_number: u16, down: bool, bearing: u16) -> u16
    requires type_number_bound { type_number < 16 }
    requires bearing_bound { bearing < 512 }
    ensures { result ≡ first_number type_number down bearing }
{
    let high = bearing / 256;
    let first = 16 * type_number + 2 * u16::from(down) + high;
    256 * first + bearing % 256
}

// Stores the four octets of two numbers, from the first on; then with one octet more; then with two more.
fn put_four(out: &mut [u8], first: u16, speed: u16)
    requires { 4 ≤ length out.old }
    ensures { out.new ≡ sets out.old 0 (front first speed) }
{
    octets::put_word(out, 0, first);
    octets::put_word(out, 2, speed);
}

fn put_five(out: &mut [u8], first: u16, speed: u16, fifth: u8)
    requires { 5 ≤ length out.old }
    ensures { out.new ≡ sets out.old 0 (front first speed ++ (fifth ∷ [])) }
{
    put_four(out, first, speed);
    out[4] = fifth;
}

fn put_seven(out: &mut [u8], first: u16, speed: u16, fifth: u8, sixth: u8, seventh: u8)
    requires { 7 ≤ length out.old }
    ensures { out.new ≡ sets out.old 0 (front first speed ++ (fifth ∷ sixth ∷ seventh ∷ [])) }
{
    put_five(out, first, speed, fifth);
    out[5] = sixth;
    out[6] = seventh;
}
