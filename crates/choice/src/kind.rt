// Which kind's message is best for the codes of a request.
ghost use Rattle.std.specs.Prelude.{◌≡◌, true, false, Some, is_some};
ghost use Rattle.ground.specs.Answers.{Decides};
ghost use Rattle.requests.specs.Choice.{Listed};
ghost use Rattle.choice.specs.Kinds.{FindsKind, FindsListed};

use layout::Kind;
use requests::{AreaWanted, Wanted};

// The kind of the best message on the list, of those that can hold what is wanted.
pub fn best_kind(wanted: Wanted, list: u16) -> Option<Kind>
    ensures { FindsKind wanted (Listed list) result }
{
    if wanted.altitude.is_some() {
        return elevated_kind(wanted, list);
    }
    if wanted.altitude_uncertainty.is_some() {
        return None;
    }
    if let Some(area) = wanted.area {
        return area_kind(wanted, area, list);
    }
    if wanted.confidence.0 != 0 {
        return None;
    }
    if_listed(Kind::Point, list)
}

// With an altitude: one kind at most.
fn elevated_kind(wanted: Wanted, list: u16) -> Option<Kind>
    requires { is_some wanted.altitude ≡ true }
    ensures { FindsKind wanted (Listed list) result }
{
    if wanted.area.is_some() {
        if wanted.altitude_uncertainty.is_some() {
            return if_listed(Kind::AltitudeEllipsoid, list);
        }
        return None;
    }
    if wanted.altitude_uncertainty.is_some() || wanted.confidence.0 != 0 {
        return None;
    }
    if_listed(Kind::AltitudePoint, list)
}

// With a horizontal uncertainty alone: a circle, which has no confidence, unless the ellipse is tighter.
fn area_kind(wanted: Wanted, area: AreaWanted, list: u16) -> Option<Kind>
    requires { (is_some wanted.altitude ≡ false) × (is_some wanted.altitude_uncertainty ≡ false) × (wanted.area ≡ Some area) }
    ensures { FindsKind wanted (Listed list) result }
{
    if 0 < wanted.confidence.0 {
        return if_listed(Kind::Ellipse, list);
    }
    if !listed(Kind::Circle, list) {
        return if_listed(Kind::Ellipse, list);
    }
    if area.semi_minor.0 < area.semi_major.0 {
        if listed(Kind::Ellipse, list) {
            return Some(Kind::Ellipse);
        }
    }
    Some(Kind::Circle)
}

fn if_listed(kind: Kind, list: u16) -> Option<Kind>
    ensures { FindsListed kind (Listed list) result }
{
    if listed(kind, list) { Some(kind) } else { None }
}

// Whether the kind's bit is set.
fn listed(kind: Kind, list: u16) -> bool
    ensures { Decides result (Listed list kind) }
{
    (list >> u8::from(kind)) % 2 == 1
}
