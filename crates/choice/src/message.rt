// The message of a kind with the codes that are wanted.
ghost use Rattle.std.specs.Prelude.{◌≡◌, ◌++◌, ◌≤◌, length, drop};
ghost use Rattle.std.proofs.lemmas.List.Edits.{sets};
ghost use Rattle.layout.specs.Layout.{shape_rows};
ghost use Rattle.layout.specs.Rows.{length_of};
ghost use Rattle.requests.specs.Choice.{TakesPart};
ghost use Rattle.requests.specs.Codes.{Tame, message_of, wanted_record};
ghost use Rattle.composing.specs.Composing.{rest};

use ground::{AltitudeCode, AltitudeUncertaintyCode, OrientationCode, UncertaintyCode};
use layout::Kind;
use requests::{AreaWanted, Wanted};

const NO_AREA: AreaWanted = AreaWanted {
    semi_major: UncertaintyCode(0),
    semi_minor: UncertaintyCode(0),
    orientation: OrientationCode(0),
};

// Stores the message.
pub fn store_choice(out: &mut [u8], kind: Kind, wanted: Wanted)
    requires takes_part { TakesPart kind }
    requires tame { Tame wanted }
    requires kind_in_bounds { length_of (shape_rows kind 0) ≤ length out.old }
    ensures { out.new ≡ message_of kind wanted ++ drop (length_of (shape_rows kind 0)) out.old }
{
    let latitude = wanted.latitude;
    let longitude = wanted.longitude;
    out[0] = layout::first_octet(kind);
    octets::put_position(out, 1, latitude, longitude);
    put_rest(out, kind, wanted);
}

// Stores the octets after the position.
fn put_rest(out: &mut [u8], kind: Kind, wanted: Wanted)
    requires takes_part { TakesPart kind }
    requires tame { Tame wanted }
    requires kind_in_bounds { length_of (shape_rows kind 0) ≤ length out.old }
    ensures { out.new ≡ sets out.old 7 (rest kind (wanted_record kind wanted)) }
{
    let altitude = wanted.altitude.unwrap_or(AltitudeCode(false, 0));
    let area = wanted.area.unwrap_or(NO_AREA);
    let altitude_uncertainty = wanted
        .altitude_uncertainty
        .unwrap_or(AltitudeUncertaintyCode(0));
    let major = area.semi_major.0;
    let minor = area.semi_minor.0;
    let orientation = area.orientation.0;
    let height = altitude_uncertainty.0;
    let confidence = wanted.confidence.0;
    match kind {
        Kind::Nothing | Kind::Point | Kind::Polygon | Kind::Arc => {}
        Kind::Circle => out[7] = major,
        Kind::Ellipse => octets::put_four(out, 7, major, minor, orientation, confidence),
        Kind::AltitudePoint => octets::put_altitude(out, 7, altitude),
        Kind::AltitudeEllipsoid => {
            octets::put_altitude(out, 7, altitude);
            octets::put_four(out, 9, major, minor, orientation, height);
            out[13] = confidence;
        }
    }
}
