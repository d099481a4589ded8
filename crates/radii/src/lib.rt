// Uncertainty codes and their reported radii: K covers every whole millimetre up to r(K), or h(K) for an altitude
// (document 01, "Quantities and codes").
#![tactic(auto)]

mod rows;
mod tables;

ghost use Rattle.radii.specs.Radii.{CodedUncertainty, ReportedUncertainty, CodedAltitudeUncertainty, ReportedAltitudeUncertainty};

use ground::{AltitudeUncertaintyCode, Millimetres, Refusal, UncertaintyCode};
use tables::Table;

pub fn uncertainty_code(radius: Millimetres) -> Result<UncertaintyCode, Refusal>
    ensures { CodedUncertainty radius result }
{
    tables::covering(Table::Radii, radius.0).map(UncertaintyCode)
}

pub fn reported_uncertainty(code: UncertaintyCode) -> Result<Millimetres, Refusal>
    ensures { ReportedUncertainty code result }
{
    tables::covered(Table::Radii, code.0).map(Millimetres)
}

pub fn altitude_uncertainty_code(height: Millimetres) -> Result<AltitudeUncertaintyCode, Refusal>
    ensures { CodedAltitudeUncertainty height result }
{
    tables::covering(Table::Heights, height.0).map(AltitudeUncertaintyCode)
}

pub fn reported_altitude_uncertainty(code: AltitudeUncertaintyCode) -> Result<Millimetres, Refusal>
    ensures { ReportedAltitudeUncertainty code result }
{
    tables::covered(Table::Heights, code.0).map(Millimetres)
}
