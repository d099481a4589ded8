// Calls of the system that fail: which are to be made again, and how the others are said.
use std::io::{Error, ErrorKind};
use std::thread;

// No call is made so often.
pub const MOST_TRIES: u64 = 4611686018427387904;

// The system's numbers for no error, and for a call that a signal cut short.
const NO_ERROR: i32 = 0;

const CUT_SHORT: i32 = 4;

// Whether the call that failed is to be made again: a signal came in between, or it would have had to wait, which is done here.
pub fn again(error: Error) -> bool {
    match error.kind() {
        ErrorKind::Interrupted => true,
        ErrorKind::WouldBlock => {
            thread::yield_now();
            true
        }
        _ => false,
    }
}

// What is said of a write that took nothing and did not say why.
pub fn nothing_taken() -> Error {
    Error::from_raw_os_error(NO_ERROR)
}

// What is said where the tries of a call are used up.
pub fn cut_short() -> Error {
    Error::from_raw_os_error(CUT_SHORT)
}

// Writes a line to standard error: what failed, as the caller names it, a colon and the system's text for the error.
pub fn fail(rt: &HostRuntime, what: &str, error: Error) {
    let _ = match format!(in rt.alloc(); "{error}") {
        Ok(text) => eprintln!(rt; "{what}: {}", reason(text.as_str())),
        Err(_) => eprintln!(rt; "{what}: {error}"),
    };
}

// The text of the system's error without its number, which stands behind it in brackets.
fn reason(text: &str) -> &str {
    match text.split_once(" (os error ") {
        Some((why, _)) => why,
        None => text,
    }
}
