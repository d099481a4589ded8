// What a function hands back: how many elements or octets it put, or minus the number of its refusal.
ghost use Rattle.std.specs.Prelude.{◌≡◌, ◌<◌, ◌^◌, IfOk};
ghost use Rattle.code_arrays.specs.Answers.{answer_of};

use ground::{Parts, Refusal, Whole};

// The number that is handed back.
pub fn answer(put: Result<usize, Refusal>) -> Whole
    requires { IfOk put (λ n. n < 2 ^ 63) }
    ensures { result.0 ≡ answer_of put }
{
    match put {
        Ok(n) => Whole(n as i64),
        Err(why) => ground::joined(Parts {
            negative: true,
            size: u64::from(why),
        }),
    }
}
