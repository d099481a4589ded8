// The quantities of the record that a shape's elements say, put into elements: document 01, "Quantities and codes".
#![tactic(auto)]

mod points;

ghost use Rattle.std.specs.Prelude.{◌≡◌, ◌≤◌, length};
ghost use Rattle.code_arrays.specs.Shapes.{array_kind, array_rows, value_in};
ghost use Rattle.judging.specs.Judging.{RecordAnswer};
ghost use Rattle.array_reports.specs.Reports.{ReportsInto};

use ground::Refusal;
use layout::Kind;

// Puts the quantities of the codes into the first elements of the array, or refuses the codes and leaves the array as it is.
pub fn report(out: &mut [i64], codes: &[u32]) -> Result<(), Refusal>
    requires { 61 ≤ length codes.now }
    ensures { ReportsInto codes.now out.old out.new result }
{
    let kind = code_arrays::kind_in(codes);
    judging::outcome(codes, kind)?;
    report_taken(out, codes, kind)
}

// 10, of a record that is taken.
fn report_taken(out: &mut [i64], codes: &[u32], kind: Kind) -> Result<(), Refusal>
    requires in_bounds { 61 ≤ length codes.now }
    requires kind_value { kind ≡ array_kind codes.now }
    requires record_answer { RecordAnswer (array_rows codes.now) (value_in codes.now) 0 }
    ensures { ReportsInto codes.now out.old out.new result }
{
    if out.len() < 44 {
        return Err(Refusal::BufferTooShort);
    }
    let count = codes[1] as u8;
    let mut outline = code_arrays::outline_in(codes, kind);
    outline.count = count;
    quantity_arrays::put_singles(out, field_reports::outline(outline));
    points::put_reported_points(out, codes, count);
    quantity_arrays::clear_from(out, count);
    Ok(())
}
