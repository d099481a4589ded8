// What single fields say.
ghost use Rattle.std.specs.Prelude.{List, ℕ};
ghost use Rattle.request_lines.specs.Entries.{EntryHolds};
ghost use Rattle.request_lines.specs.Reading.{ReadsCoordinate, ReadsAltitude, ReadsAmount, ReadsUncertainty, ReadsConfidence};

use crate::entries::Entry;
use crate::{Unreadable, entries};
use ground::{Millimetres, Nanodegrees, PerCent, SignedMillimetres};

// The coordinate in a field that holds that.
pub fn coordinate_of(entry: Entry) -> Result<Nanodegrees, Unreadable>
    ensures { (f : List ℕ) → EntryHolds f entry → ReadsCoordinate f result }
{
    let coordinate = text::signed_64(entries::numeral_of(entry)).ok_or(Unreadable)?;
    Ok(Nanodegrees(coordinate))
}

// The altitude in it.
pub fn altitude_of(entry: Entry) -> Result<Option<SignedMillimetres>, Unreadable>
    ensures { (f : List ℕ) → EntryHolds f entry → ReadsAltitude f result }
{
    if let Entry::Dash = entry {
        return Ok(None);
    }
    let altitude = text::signed_32(entries::numeral_of(entry)).ok_or(Unreadable)?;
    Ok(Some(SignedMillimetres(altitude)))
}

// The number of 32 bits without a sign in it, where there is one.
pub fn amount_of(entry: Entry) -> Result<Option<u32>, Unreadable>
    ensures { (f : List ℕ) → EntryHolds f entry → ReadsAmount f result }
{
    if let Entry::Dash = entry {
        return Ok(None);
    }
    let amount = text::unsigned_32(entries::numeral_of(entry)).ok_or(Unreadable)?;
    Ok(Some(amount))
}

// The altitude uncertainty in it.
pub fn uncertainty_of(entry: Entry) -> Result<Option<Millimetres>, Unreadable>
    ensures { (f : List ℕ) → EntryHolds f entry → ReadsUncertainty f result }
{
    Ok(amount_of(entry)?.map(Millimetres))
}

// The confidence in it.
pub fn confidence_of(entry: Entry) -> Result<Option<PerCent>, Unreadable>
    ensures { (f : List ℕ) → EntryHolds f entry → ReadsConfidence f result }
{
    Ok(amount_of(entry)?.map(PerCent))
}
