// The library's calls over octets and arrays of numbers, behind the C interface of `desk`: reading, writing, reporting, coding, the choice
// and the single codes. What each says of what its arrays hold is what the inner function says (specs/).
#![tactic(auto)]

mod request;
mod shape_calls;
mod single_calls;
mod velocity_calls;

pub use shape_calls::{code_shape, read_shape, report_shape, write_shape};
pub use single_calls::{choose, code, report};
pub use velocity_calls::{code_velocity, read_velocity, report_velocity, write_velocity};
