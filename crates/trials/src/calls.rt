// The call that a line names, by what it fills: codes, octets or quantities.
ghost use Rattle.std.specs.Prelude.{◌≤◌, length};
ghost use Rattle.trials.specs.Given.{SoundGiven};

use crate::given::Given;
use crate::verb::{CodesCall, OctetsCall, QuantitiesCall, Verb};
use crate::{given, print};
use ground::Whole;

// The first number is how many places the array has that is filled.
pub fn call(verb: Verb, given: Given)
    requires { SoundGiven given }
{
    let numbers = &given.numbers[..given.count];
    let [places, rest @ ..] = numbers else {
        return;
    };
    let room = given::room(*places);
    match verb {
        Verb::FillCodes(call) => fill_codes(call, room, rest),
        Verb::FillOctets(call) => fill_octets(call, room, rest),
        Verb::FillQuantities(call) => fill_quantities(call, room, rest),
    }
}

fn fill_codes(call: CodesCall, room: usize, numbers: &[i64])
    requires room_bound { room ≤ 128 }
    requires numbers_len_bound { length numbers.now ≤ 128 }
{
    let mut codes = [170; 128];
    show_codes(&mut codes[0..room], call, numbers);
}

fn show_codes(codes: &mut [u32], call: CodesCall, numbers: &[i64])
    requires { length numbers.now ≤ 128 }
{
    let n = numbers.len();
    let message = given::octets_from(numbers);
    print::whole(put_codes(codes, call, &message[0..n], numbers));
    print::codes(codes);
}

fn put_codes(codes: &mut [u32], call: CodesCall, message: &[u8], quantities: &[i64]) -> Whole {
    match call {
        CodesCall::ReadShape => library::read_shape(codes, message),
        CodesCall::ReadVelocity => library::read_velocity(codes, message),
        CodesCall::CodeShape => library::code_shape(codes, quantities),
        CodesCall::CodeVelocity => library::code_velocity(codes, quantities),
        CodesCall::Code => code_one(codes, quantities),
    }
}

// The field stands before the quantity.
fn code_one(code: &mut [u32], numbers: &[i64]) -> Whole {
    let [field, quantity, ..] = numbers else {
        return Whole(0);
    };
    library::code(code, given::octet(*field), Whole(*quantity))
}

fn fill_octets(call: OctetsCall, room: usize, numbers: &[i64])
    requires room_bound { room ≤ 128 }
    requires numbers_len_bound { length numbers.now ≤ 128 }
{
    let mut octets = [170; 128];
    show_octets(&mut octets[0..room], call, numbers);
}

fn show_octets(octets: &mut [u8], call: OctetsCall, numbers: &[i64])
    requires { length numbers.now ≤ 128 }
{
    let n = numbers.len();
    let codes = given::codes_from(numbers);
    print::whole(put_octets(octets, call, &codes[0..n], numbers));
    print::octets(octets);
}

fn put_octets(octets: &mut [u8], call: OctetsCall, codes: &[u32], request: &[i64]) -> Whole {
    match call {
        OctetsCall::WriteShape => library::write_shape(octets, codes),
        OctetsCall::WriteVelocity => library::write_velocity(octets, codes),
        OctetsCall::Choose => choose(octets, request),
    }
}

// The list stands before the request.
fn choose(octets: &mut [u8], numbers: &[i64]) -> Whole {
    let [list, request @ ..] = numbers else {
        return Whole(0);
    };
    library::choose(octets, request, given::word(*list))
}

fn fill_quantities(call: QuantitiesCall, room: usize, numbers: &[i64])
    requires room_bound { room ≤ 128 }
    requires numbers_len_bound { length numbers.now ≤ 128 }
{
    let mut quantities = [170; 128];
    show_quantities(&mut quantities[0..room], call, numbers);
}

fn show_quantities(quantities: &mut [i64], call: QuantitiesCall, numbers: &[i64])
    requires { length numbers.now ≤ 128 }
{
    let n = numbers.len();
    let codes = given::codes_from(numbers);
    print::whole(put_quantities(quantities, call, &codes[0..n]));
    print::quantities(quantities);
}

fn put_quantities(quantities: &mut [i64], call: QuantitiesCall, codes: &[u32]) -> Whole {
    match call {
        QuantitiesCall::ReportShape => library::report_shape(quantities, codes),
        QuantitiesCall::ReportVelocity => library::report_velocity(quantities, codes),
        QuantitiesCall::Report => report_one(quantities, codes),
    }
}

// The field stands before the code.
fn report_one(quantity: &mut [i64], codes: &[u32]) -> Whole {
    let [field, code @ ..] = codes else {
        return Whole(0);
    };
    library::report(quantity, given::capped(*field), code)
}
