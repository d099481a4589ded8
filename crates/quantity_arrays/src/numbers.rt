// What single elements say.
ghost use Rattle.std.specs.Prelude.{◌≡◌};
ghost use Rattle.ground.specs.Answers.{Decides};
ghost use Rattle.quantity_arrays.specs.Numbers.{octet_of, Optional, optional_of, optional_element, confidence_of, confidence_element, uncertainty_speed_of, uncertainty_speed_element};

use ground::{MetresPerHour, PerCent, Whole};

// A type's number or a count. What an octet can't hold is 255, which is neither a type nor a count.
pub fn octet(element: Whole) -> u8
    ensures { result ≡ octet_of element.0 }
{
    u8::try_from(element.0).unwrap_or(u8::MAX)
}

// Whether the element says a number of 32 bits without a sign, or that there is none.
pub fn is_optional(element: Whole) -> bool
    ensures { Decides result (Optional element.0) }
{
    code_arrays::is_missing(element) || code_arrays::is_natural(element)
}

pub fn confidence(element: Whole) -> Option<PerCent>
    ensures { result ≡ confidence_of element.0 }
{
    optional(element).map(PerCent)
}

pub fn confidence_element(confidence: Option<PerCent>) -> Whole
    ensures { result.0 ≡ confidence_element confidence }
{
    optional_element(confidence.map(|p| p.0))
}

pub fn uncertainty_speed(element: Whole) -> Option<MetresPerHour>
    ensures { result ≡ uncertainty_speed_of element.0 }
{
    optional(element).map(MetresPerHour)
}

pub fn uncertainty_speed_element(speed: Option<MetresPerHour>) -> Whole
    ensures { result.0 ≡ uncertainty_speed_element speed }
{
    optional_element(speed.map(|s| s.0))
}

fn optional(element: Whole) -> Option<u32>
    ensures { result ≡ optional_of element.0 }
{
    if code_arrays::is_missing(element) {
        return None;
    }
    Some(code_arrays::natural(element))
}

fn optional_element(n: Option<u32>) -> Whole
    ensures { result.0 ≡ optional_element n }
{
    match n {
        Some(n) => code_arrays::wide(n),
        None => code_arrays::missing(),
    }
}
