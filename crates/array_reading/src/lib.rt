// Octets to the elements of a shape's or a velocity's codes: document 01, "Octet layouts" and "Refusal numbers". No record is made of the
// points.
#![tactic(auto)]

mod points;
mod velocity;

ghost use Rattle.std.specs.Prelude.{◌≤◌, length, ◌≡◌};
ghost use Rattle.layout.specs.declared.shape.Kind.TheVariants.{Polygon};
ghost use Rattle.forming.specs.Forming.{MessageFormAnswer};
ghost use Rattle.forming.proofs.ReadLaws.{Starts};
ghost use Rattle.array_reading.specs.Reading.{ReadsInto};

use ground::Refusal;
use layout::Kind;
pub use velocity::read_velocity;

// Puts the codes in a message into the first elements of the array, or refuses it and leaves the array as it is. Each octet is looked at once.
pub fn read_shape(codes: &mut [u32], s: &[u8]) -> Result<(), Refusal>
    ensures { ReadsInto s.now codes.old codes.new result }
{
    if s.len() == 0 {
        return Err(Refusal::NoOctets);
    }
    let first = octets::octet(s, 0);
    let kind = Kind::from(first / 16);
    let n = first % 16;
    forming::form(s.len(), kind, n)?;
    if let Kind::Polygon = kind {
        return read_polygon(codes, s, n);
    }
    read_outline(codes, s, kind, n)
}

// A polygon, of a message that has its form.
fn read_polygon(codes: &mut [u32], s: &[u8], n: u8) -> Result<(), Refusal>
    requires starts { Starts s.now Polygon n }
    requires message_form_answer { MessageFormAnswer Polygon n (length s.now) 0 }
    ensures { ReadsInto s.now codes.old codes.new result }
{
    if codes.len() < 61 {
        return Err(Refusal::BufferTooShort);
    }
    let mut outline = layout::blank_shape(Kind::Polygon);
    outline.count = n;
    code_arrays::put_singles(codes, outline);
    points::put_read_points(codes, s, n);
    code_arrays::clear_from(codes, n);
    Ok(())
}

// A shape that has no points, of a message that has its form. 5 and 6 are judged on the codes, in which one that the kind has no field
// for is 0.
fn read_outline(codes: &mut [u32], s: &[u8], kind: Kind, n: u8) -> Result<(), Refusal>
    requires fact { kind ≡ Polygon → ⊥ }
    requires starts { Starts s.now kind n }
    requires message_form_answer { MessageFormAnswer kind n (length s.now) 0 }
    ensures { ReadsInto s.now codes.old codes.new result }
{
    let outline = fetching::shape(s, kind, n);
    forming::codes_outcome(
        outline.orientation.0,
        outline.offset.0,
        outline.included.0,
        outline.confidence.0,
    )?;
    if codes.len() < 61 {
        return Err(Refusal::BufferTooShort);
    }
    code_arrays::put_singles(codes, outline);
    code_arrays::clear_from(codes, 0);
    Ok(())
}
