// Shapes: octets, codes and quantities. The caller's own elements are read and filled; no record is made of them.
ghost use Rattle.library.specs.Promises.{ReadsShapeInto, WritesShapeFrom, ReportsShapeFrom, CodesShapeFrom};

use ground::{Refusal, Whole};

const CODES: usize = 61;

const QUANTITIES: usize = 44;

// Octets to codes.
pub fn read_shape(codes: &mut [u32], message: &[u8]) -> Whole
    ensures { ReadsShapeInto message.now codes.old codes.new result.0 }
{
    let read = array_reading::read_shape(codes, message);
    code_arrays::answer(read.and(Ok(CODES)))
}

// Codes to octets.
pub fn write_shape(out: &mut [u8], codes: &[u32]) -> Whole
    ensures { WritesShapeFrom codes.now out.old out.new result.0 }
{
    if codes.len() < CODES {
        return code_arrays::answer(Err(Refusal::WrongLength));
    }
    let written = composing::write(out, codes);
    code_arrays::answer(written)
}

// Codes to quantities.
pub fn report_shape(quantities: &mut [i64], codes: &[u32]) -> Whole
    ensures { ReportsShapeFrom codes.now quantities.old quantities.new result.0 }
{
    if codes.len() < CODES {
        return code_arrays::answer(Err(Refusal::WrongLength));
    }
    let reported = array_reports::report(quantities, codes);
    code_arrays::answer(reported.and(Ok(QUANTITIES)))
}

// Quantities to codes.
pub fn code_shape(codes: &mut [u32], quantities: &[i64]) -> Whole
    ensures { CodesShapeFrom quantities.now codes.old codes.new result.0 }
{
    if quantities.len() < QUANTITIES {
        return code_arrays::answer(Err(Refusal::WrongLength));
    }
    let coded = array_records::code(codes, quantities);
    code_arrays::answer(coded.and(Ok(CODES)))
}
