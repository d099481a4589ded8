// What is said of a single field, in plain numbers for a program or a library in another language. A coder's answer is a `SaidCode`, a
// reporter's a `SaidQuantity`, each or a refusal.
ghost use Rattle.std.specs.Prelude.{◌≡◌, MatchOption};
ghost use Rattle.ground.specs.declared.said.SaidCode.{SaidCode};
ghost use Rattle.ground.specs.declared.said.SaidQuantity.{SaidQuantity};

use crate::code::{
    AltitudeCode, AltitudeUncertaintyCode, BearingCode, ConfidenceCode, HorizontalSpeedCode,
    IncludedCode, InnerRadiusCode, LatitudeCode, LongitudeCode, OffsetCode, OrientationCode,
    UncertaintyCode, UncertaintySpeedCode, VerticalSpeedCode,
};
use crate::quantity::{
    MetresPerHour, Millidegrees, Millimetres, Nanodegrees, PerCent, SignedMetresPerHour,
    SignedMillimetres,
};

// A code's sign and number.
#[derive(Clone, Copy)]
pub struct SignedCode(pub bool, pub u32);

#[derive(Clone, Copy)]
pub enum SaidCode {
    Natural(u32),
    Signed(SignedCode),
    Longitude(LongitudeCode),
}

#[derive(Clone, Copy)]
pub enum SaidQuantity {
    Natural(u32),
    Coordinate(Nanodegrees),
    Altitude(SignedMillimetres),
    VerticalSpeed(SignedMetresPerHour),
    Missing,
}

impl From<LatitudeCode> for SaidCode {
    ghost from_gives = { λ c said. said ≡ SaidCode.Signed (record { 0 = c.0; 1 = c.1 }) };

    fn from(c: LatitudeCode) -> SaidCode {
        SaidCode::Signed(SignedCode(c.0, c.1))
    }
}

impl From<AltitudeCode> for SaidCode {
    ghost from_gives = { λ c said. said ≡ SaidCode.Signed (record { 0 = c.0; 1 = c.1 }) };

    fn from(c: AltitudeCode) -> SaidCode {
        SaidCode::Signed(SignedCode(c.0, u32::from(c.1)))
    }
}

impl From<VerticalSpeedCode> for SaidCode {
    ghost from_gives = { λ c said. said ≡ SaidCode.Signed (record { 0 = c.0; 1 = c.1 }) };

    fn from(c: VerticalSpeedCode) -> SaidCode {
        SaidCode::Signed(SignedCode(c.0, u32::from(c.1)))
    }
}

impl From<LongitudeCode> for SaidCode {
    ghost from_gives = { λ c said. said ≡ SaidCode.Longitude c };

    fn from(c: LongitudeCode) -> SaidCode {
        SaidCode::Longitude(c)
    }
}

impl From<UncertaintyCode> for SaidCode {
    ghost from_gives = { λ c said. said ≡ SaidCode.Natural c.0 };

    fn from(c: UncertaintyCode) -> SaidCode {
        SaidCode::Natural(u32::from(c.0))
    }
}

impl From<AltitudeUncertaintyCode> for SaidCode {
    ghost from_gives = { λ c said. said ≡ SaidCode.Natural c.0 };

    fn from(c: AltitudeUncertaintyCode) -> SaidCode {
        SaidCode::Natural(u32::from(c.0))
    }
}

impl From<InnerRadiusCode> for SaidCode {
    ghost from_gives = { λ c said. said ≡ SaidCode.Natural c.0 };

    fn from(c: InnerRadiusCode) -> SaidCode {
        SaidCode::Natural(u32::from(c.0))
    }
}

impl From<OffsetCode> for SaidCode {
    ghost from_gives = { λ c said. said ≡ SaidCode.Natural c.0 };

    fn from(c: OffsetCode) -> SaidCode {
        SaidCode::Natural(u32::from(c.0))
    }
}

impl From<IncludedCode> for SaidCode {
    ghost from_gives = { λ c said. said ≡ SaidCode.Natural c.0 };

    fn from(c: IncludedCode) -> SaidCode {
        SaidCode::Natural(u32::from(c.0))
    }
}

impl From<OrientationCode> for SaidCode {
    ghost from_gives = { λ c said. said ≡ SaidCode.Natural c.0 };

    fn from(c: OrientationCode) -> SaidCode {
        SaidCode::Natural(u32::from(c.0))
    }
}

impl From<BearingCode> for SaidCode {
    ghost from_gives = { λ c said. said ≡ SaidCode.Natural c.0 };

    fn from(c: BearingCode) -> SaidCode {
        SaidCode::Natural(u32::from(c.0))
    }
}

impl From<HorizontalSpeedCode> for SaidCode {
    ghost from_gives = { λ c said. said ≡ SaidCode.Natural c.0 };

    fn from(c: HorizontalSpeedCode) -> SaidCode {
        SaidCode::Natural(u32::from(c.0))
    }
}

impl From<UncertaintySpeedCode> for SaidCode {
    ghost from_gives = { λ c said. said ≡ SaidCode.Natural c.0 };

    fn from(c: UncertaintySpeedCode) -> SaidCode {
        SaidCode::Natural(u32::from(c.0))
    }
}

impl From<ConfidenceCode> for SaidCode {
    ghost from_gives = { λ c said. said ≡ SaidCode.Natural c.0 };

    fn from(c: ConfidenceCode) -> SaidCode {
        SaidCode::Natural(u32::from(c.0))
    }
}

impl From<Nanodegrees> for SaidQuantity {
    ghost from_gives = { λ x said. said ≡ SaidQuantity.Coordinate x };

    fn from(x: Nanodegrees) -> SaidQuantity {
        SaidQuantity::Coordinate(x)
    }
}

impl From<SignedMillimetres> for SaidQuantity {
    ghost from_gives = { λ x said. said ≡ SaidQuantity.Altitude x };

    fn from(x: SignedMillimetres) -> SaidQuantity {
        SaidQuantity::Altitude(x)
    }
}

impl From<SignedMetresPerHour> for SaidQuantity {
    ghost from_gives = { λ x said. said ≡ SaidQuantity.VerticalSpeed x };

    fn from(x: SignedMetresPerHour) -> SaidQuantity {
        SaidQuantity::VerticalSpeed(x)
    }
}

impl From<Millimetres> for SaidQuantity {
    ghost from_gives = { λ x said. said ≡ SaidQuantity.Natural x.0 };

    fn from(x: Millimetres) -> SaidQuantity {
        SaidQuantity::Natural(x.0)
    }
}

impl From<Millidegrees> for SaidQuantity {
    ghost from_gives = { λ x said. said ≡ SaidQuantity.Natural x.0 };

    fn from(x: Millidegrees) -> SaidQuantity {
        SaidQuantity::Natural(x.0)
    }
}

impl From<MetresPerHour> for SaidQuantity {
    ghost from_gives = { λ x said. said ≡ SaidQuantity.Natural x.0 };

    fn from(x: MetresPerHour) -> SaidQuantity {
        SaidQuantity::Natural(x.0)
    }
}

impl From<PerCent> for SaidQuantity {
    ghost from_gives = { λ x said. said ≡ SaidQuantity.Natural x.0 };

    fn from(x: PerCent) -> SaidQuantity {
        SaidQuantity::Natural(x.0)
    }
}

impl From<Option<MetresPerHour>> for SaidQuantity {
    ghost from_gives = { λ x said. MatchOption x (said ≡ SaidQuantity.Missing) (λ q. said ≡ SaidQuantity.Natural q.0) };

    fn from(x: Option<MetresPerHour>) -> SaidQuantity {
        match x {
            Some(q) => SaidQuantity::from(q),
            None => SaidQuantity::Missing,
        }
    }
}

impl From<Option<PerCent>> for SaidQuantity {
    ghost from_gives = { λ x said. MatchOption x (said ≡ SaidQuantity.Missing) (λ q. said ≡ SaidQuantity.Natural q.0) };

    fn from(x: Option<PerCent>) -> SaidQuantity {
        match x {
            Some(q) => SaidQuantity::from(q),
            None => SaidQuantity::Missing,
        }
    }
}
