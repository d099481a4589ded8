// The codes of a request: none of what is not asked.
use ground::{
    AltitudeCode, AltitudeUncertaintyCode, ConfidenceCode, LatitudeCode, LongitudeCode,
    OrientationCode, UncertaintyCode,
};

#[derive(Clone, Copy)]
pub struct AreaWanted {
    pub semi_major: UncertaintyCode,
    pub semi_minor: UncertaintyCode,
    pub orientation: OrientationCode,
}

#[derive(Clone, Copy)]
pub struct Wanted {
    pub latitude: LatitudeCode,
    pub longitude: LongitudeCode,
    pub altitude: Option<AltitudeCode>,
    pub area: Option<AreaWanted>,
    pub altitude_uncertainty: Option<AltitudeUncertaintyCode>,
    // 0 where none is asked
    pub confidence: ConfidenceCode,
}
