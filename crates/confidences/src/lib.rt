// Confidence, in per cent (document 01, "Quantities and codes").
#![tactic(auto)]

ghost use Rattle.confidences.specs.Confidences.{CodedConfidence, ReportedConfidence};

use ground::{ConfidenceCode, PerCent, Refusal};

// A missing one is code 0: 0 per cent can't be asked.
pub fn confidence_code(confidence: Option<PerCent>) -> Result<ConfidenceCode, Refusal>
    ensures { CodedConfidence confidence result }
{
    match confidence {
        None => Ok(ConfidenceCode(0)),
        Some(PerCent(p @ 1..=100)) => Ok(ConfidenceCode(p as u8)),
        Some(_) => Err(Refusal::OutOfRange),
    }
}

pub fn reported_confidence(code: ConfidenceCode) -> Result<Option<PerCent>, Refusal>
    ensures { ReportedConfidence code result }
{
    match code.0 {
        0 => Ok(None),
        n @ 1..=100 => Ok(Some(PerCent(u32::from(n)))),
        _ => Err(Refusal::ConfidenceTooLarge),
    }
}
