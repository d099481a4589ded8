// The choice of shape for one point, and the code and the quantity of one field.
ghost use Rattle.library.specs.Promises.{ChoosesFrom, CodesOne, ReportsOne};

use crate::request;
use ground::{Refusal, Whole};

// A request to the octets of the best message on the receiver's list.
pub fn choose(out: &mut [u8], request: &[i64], list: u16) -> Whole
    ensures { ChoosesFrom request.now list out.old out.new result.0 }
{
    if request.len() < 8 {
        return code_arrays::answer(Err(Refusal::WrongLength));
    }
    let Ok(asked) = request::request_in(request) else {
        return code_arrays::answer(Err(Refusal::OutOfRange));
    };
    let written = choice::choose(out, asked, list);
    code_arrays::answer(written)
}

// The code of one quantity, as its numbers: S or D and N, or N alone.
pub fn code(numbers: &mut [u32], field: u8, quantity: Whole) -> Whole
    ensures { CodesOne field quantity.0 numbers.old numbers.new result.0 }
{
    field_arrays::put_code(numbers, field_arrays::coded(field, quantity))
}

// The quantity of one code.
pub fn report(quantity: &mut [i64], field: u8, numbers: &[u32]) -> Whole
    ensures { ReportsOne field numbers.now quantity.old quantity.new result.0 }
{
    field_arrays::put_quantity(quantity, field_arrays::reported(field, numbers))
}
