// What document 01 demands of codes, in messages and in records.
ghost use Rattle.ground.specs.Answers.{outcome_number};
ghost use Rattle.layout.specs.Demands.{CodesAnswer};

use ground::Refusal;

// 5 and 6. A code that the shape doesn't use is given as 0, which either demand takes.
pub fn codes_outcome(
    orientation: u32,
    offset: u32,
    included: u32,
    confidence: u32,
) -> Result<(), Refusal>
    ensures { CodesAnswer orientation offset included confidence (outcome_number result) }
{
    if 180 <= orientation {
        return Err(Refusal::AngleCode);
    }
    if 180 <= offset {
        return Err(Refusal::AngleCode);
    }
    if 180 <= included {
        return Err(Refusal::AngleCode);
    }
    if 101 <= confidence {
        return Err(Refusal::ConfidenceTooLarge);
    }
    Ok(())
}
