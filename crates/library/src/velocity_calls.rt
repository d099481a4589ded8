// Velocities: octets, codes and quantities.
ghost use Rattle.std.specs.Prelude.{◌≤◌, length};
ghost use Rattle.code_arrays.specs.Answers.{PutsElements};
ghost use Rattle.ground.specs.Answers.{outcome_number, outcome_of, value_or};
ghost use Rattle.layout.specs.declared.velocity.VelocityKind.TheVariants.{Nothing};
ghost use Rattle.layout.specs.Velocities.{blank_velocity};
ghost use Rattle.quantities.specs.Velocities.{no_velocity};
ghost use Rattle.layout.specs.Demands.{Writes};
ghost use Rattle.code_arrays.specs.Velocities.{velocity_elements, array_velocity_rows, velocity_value_in};
ghost use Rattle.quantity_arrays.specs.Velocities.{velocity_quantity_elements};
ghost use Rattle.library.specs.Promises.{ReadsVelocityInto, WritesVelocityFrom, ReportsVelocityFrom, ReportsVelocityIn, CodesVelocityFrom, CodesVelocityIn, KindAnswer};

use ground::{Refusal, Whole};
use layout::{Velocity, VelocityKind};
use quantities::VelocityQuantities;

const CODES: usize = 7;

const QUANTITIES: usize = 6;

// Octets to codes.
pub fn read_velocity(codes: &mut [u32], message: &[u8]) -> Whole
    ensures { ReadsVelocityInto message.now codes.old codes.new result.0 }
{
    let read = array_reading::read_velocity(codes, message);
    code_arrays::answer(read.and(Ok(CODES)))
}

// Codes to octets.
pub fn write_velocity(out: &mut [u8], codes: &[u32]) -> Whole
    ensures { WritesVelocityFrom codes.now out.old out.new result.0 }
{
    if codes.len() < CODES {
        return code_arrays::answer(Err(Refusal::WrongLength));
    }
    let written = write_elements(out, codes);
    code_arrays::answer(written)
}

// Codes to quantities.
pub fn report_velocity(quantities: &mut [i64], codes: &[u32]) -> Whole
    ensures { ReportsVelocityFrom codes.now quantities.old quantities.new result.0 }
{
    if codes.len() < CODES {
        return code_arrays::answer(Err(Refusal::WrongLength));
    }
    put_quantities(quantities, reported_in(codes))
}

// Quantities to codes.
pub fn code_velocity(codes: &mut [u32], quantities: &[i64]) -> Whole
    ensures { CodesVelocityFrom quantities.now codes.old codes.new result.0 }
{
    if quantities.len() < QUANTITIES {
        return code_arrays::answer(Err(Refusal::WrongLength));
    }
    put_codes(codes, coded_in(quantities))
}

// A record is made after the test alone, so that the compiler need not cap what the test bounds: here, and below.
fn write_elements(out: &mut [u8], codes: &[u32]) -> Result<usize, Refusal>
    requires { 7 ≤ length codes.now }
    ensures { Writes (array_velocity_rows codes.now) (velocity_value_in codes.now) out.old out.new result }
{
    if !code_arrays::velocity_is_whole(codes) {
        let velocity = code_arrays::velocity_in(codes);
        velocities::velocity_outcome(velocity)?;
        return Err(Refusal::OutOfRange);
    }
    let velocity = code_arrays::velocity_in(codes);
    velocities::write_velocity(out, velocity)
}

fn reported_in(codes: &[u32]) -> Result<VelocityQuantities, Refusal>
    requires { 7 ≤ length codes.now }
    ensures { ReportsVelocityIn codes.now result }
{
    if !code_arrays::velocity_is_whole(codes) {
        let velocity = code_arrays::velocity_in(codes);
        velocities::velocity_outcome(velocity)?;
        return Err(Refusal::OutOfRange);
    }
    let velocity = code_arrays::velocity_in(codes);
    reports::report_velocity(velocity)
}

fn coded_in(given: &[i64]) -> Result<Velocity, Refusal>
    requires { 6 ≤ length given.now }
    ensures { CodesVelocityIn given.now result }
{
    if !quantity_arrays::velocity_arrives(given) {
        let quantities = quantity_arrays::velocity_quantities_in(given);
        let kind = quantities.kind;
        kind_outcome(kind)?;
        return Err(Refusal::OutOfRange);
    }
    let quantities = quantity_arrays::velocity_quantities_in(given);
    records::code_velocity(quantities)
}

// 2, of a kind.
fn kind_outcome(kind: VelocityKind) -> Result<(), Refusal>
    ensures { KindAnswer kind (outcome_number result) }
{
    match kind {
        VelocityKind::Nothing => Err(Refusal::UnknownType),
        VelocityKind::Horizontal => Ok(()),
        VelocityKind::HorizontalVertical => Ok(()),
        VelocityKind::HorizontalUncertain => Ok(()),
        VelocityKind::HorizontalVerticalUncertain => Ok(()),
    }
}

fn put_codes(codes: &mut [u32], coded: Result<Velocity, Refusal>) -> Whole
    ensures { PutsElements (outcome_of coded) (velocity_elements (value_or (blank_velocity Nothing) coded)) codes.old codes.new result.0 }
{
    match coded {
        Ok(velocity) => {
            if codes.len() < CODES {
                return code_arrays::answer(Err(Refusal::BufferTooShort));
            }
            code_arrays::put_velocity(codes, velocity);
            code_arrays::answer(Ok(CODES))
        }
        Err(why) => code_arrays::answer(Err(why)),
    }
}

fn put_quantities(out: &mut [i64], reported: Result<VelocityQuantities, Refusal>) -> Whole
    ensures { PutsElements (outcome_of reported) (velocity_quantity_elements (value_or no_velocity reported)) out.old out.new result.0 }
{
    match reported {
        Ok(quantities) => {
            if out.len() < QUANTITIES {
                return code_arrays::answer(Err(Refusal::BufferTooShort));
            }
            quantity_arrays::put_velocity_quantities(out, quantities);
            code_arrays::answer(Ok(QUANTITIES))
        }
        Err(why) => code_arrays::answer(Err(why)),
    }
}
