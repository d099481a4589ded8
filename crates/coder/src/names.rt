// The verb and the name in a line.
ghost use Rattle.coder.specs.Names.{IsVerb, IsName};

#[derive(Clone, Copy)]
pub enum Verb {
    Code,
    Report,
}

#[derive(Clone, Copy)]
pub enum Name {
    Latitude,
    Longitude,
    Uncertainty,
    AltitudeUncertainty,
    Altitude,
    InnerRadius,
    Offset,
    Included,
    Orientation,
    Bearing,
    HorizontalSpeed,
    VerticalSpeed,
    UncertaintySpeed,
    Confidence,
}

#[tactic(auto, unfolding(crate::specs::Names::code_verb, crate::specs::Names::report_verb))]
pub fn verb_of(word: &[u8]) -> Option<Verb>
    ensures { IsVerb word.now result }
{
    match word {
        b"code" => Some(Verb::Code),
        b"report" => Some(Verb::Report),
        _ => None,
    }
}

#[tactic(auto, unfolding(crate::specs::Names::name_of))]
pub fn name_of(word: &[u8]) -> Option<Name>
    ensures { IsName word.now result }
{
    match word {
        b"latitude" => Some(Name::Latitude),
        b"longitude" => Some(Name::Longitude),
        b"uncertainty" => Some(Name::Uncertainty),
        b"altitude-uncertainty" => Some(Name::AltitudeUncertainty),
        b"altitude" => Some(Name::Altitude),
        b"inner-radius" => Some(Name::InnerRadius),
        b"offset" => Some(Name::Offset),
        b"included" => Some(Name::Included),
        b"orientation" => Some(Name::Orientation),
        b"bearing" => Some(Name::Bearing),
        b"horizontal-speed" => Some(Name::HorizontalSpeed),
        b"vertical-speed" => Some(Name::VerticalSpeed),
        b"uncertainty-speed" => Some(Name::UncertaintySpeed),
        b"confidence" => Some(Name::Confidence),
        _ => None,
    }
}
