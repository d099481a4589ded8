// The library's C interface (include/gad.h): the eleven functions that the static library exports. Each answers with the number of the
// function of `library` that it calls.
#![tactic(auto)]

ghost use Rattle.library.specs.Promises.{ReadsShapeInto, WritesShapeFrom, ReportsShapeFrom, CodesShapeFrom, ReadsVelocityInto, WritesVelocityFrom, ReportsVelocityFrom, CodesVelocityFrom, ChoosesFrom, CodesOne, ReportsOne};

use ground::Whole;

// A shape's octets to codes.
#[unsafe(no_mangle)]
pub extern "C" fn gad_read_shape(codes: &mut [u32], message: &[u8]) -> i64
    ensures { ReadsShapeInto message.now codes.old codes.new result }
{
    library::read_shape(codes, message).0
}

// A shape's codes to octets.
#[unsafe(no_mangle)]
pub extern "C" fn gad_write_shape(out: &mut [u8], codes: &[u32]) -> i64
    ensures { WritesShapeFrom codes.now out.old out.new result }
{
    library::write_shape(out, codes).0
}

// A shape's codes to quantities.
#[unsafe(no_mangle)]
pub extern "C" fn gad_report_shape(quantities: &mut [i64], codes: &[u32]) -> i64
    ensures { ReportsShapeFrom codes.now quantities.old quantities.new result }
{
    library::report_shape(quantities, codes).0
}

// A shape's quantities to codes.
#[unsafe(no_mangle)]
pub extern "C" fn gad_code_shape(codes: &mut [u32], quantities: &[i64]) -> i64
    ensures { CodesShapeFrom quantities.now codes.old codes.new result }
{
    library::code_shape(codes, quantities).0
}

// A velocity's octets to codes.
#[unsafe(no_mangle)]
pub extern "C" fn gad_read_velocity(codes: &mut [u32], message: &[u8]) -> i64
    ensures { ReadsVelocityInto message.now codes.old codes.new result }
{
    library::read_velocity(codes, message).0
}

// A velocity's codes to octets.
#[unsafe(no_mangle)]
pub extern "C" fn gad_write_velocity(out: &mut [u8], codes: &[u32]) -> i64
    ensures { WritesVelocityFrom codes.now out.old out.new result }
{
    library::write_velocity(out, codes).0
}

// A velocity's codes to quantities.
#[unsafe(no_mangle)]
pub extern "C" fn gad_report_velocity(quantities: &mut [i64], codes: &[u32]) -> i64
    ensures { ReportsVelocityFrom codes.now quantities.old quantities.new result }
{
    library::report_velocity(quantities, codes).0
}

// A velocity's quantities to codes.
#[unsafe(no_mangle)]
pub extern "C" fn gad_code_velocity(codes: &mut [u32], quantities: &[i64]) -> i64
    ensures { CodesVelocityFrom quantities.now codes.old codes.new result }
{
    library::code_velocity(codes, quantities).0
}

// A request to the octets of the best message on the receiver's list.
#[unsafe(no_mangle)]
pub extern "C" fn gad_choose(out: &mut [u8], request: &[i64], list: u16) -> i64
    ensures { ChoosesFrom request.now list out.old out.new result }
{
    library::choose(out, request, list).0
}

// The code of one quantity.
#[unsafe(no_mangle)]
pub extern "C" fn gad_code(code: &mut [u32], field: u8, quantity: i64) -> i64
    ensures { CodesOne field quantity code.old code.new result }
{
    library::code(code, field, Whole(quantity)).0
}

// The quantity of one code.
#[unsafe(no_mangle)]
pub extern "C" fn gad_report(quantity: &mut [i64], field: u8, code: &[u32]) -> i64
    ensures { ReportsOne field code.now quantity.old quantity.new result }
{
    library::report(quantity, field, code).0
}
