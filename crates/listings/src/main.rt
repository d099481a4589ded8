// Lists the logs on standard input, each with its length in two octets before it: a test of logs that end, or are broken, in
// every way.
#![tactic(auto)]

ghost use Rattle.std.specs.Prelude.{◌+◌, length};

// Lists a log, and writes that.
fn list(out: &mut [u8], log: &[u8]) {
    let listed = listing::list_some(out, log, true, 0);
    let written = listed.written;
    io::write_all(1, &out[..written]);
}

fn list_all(out: &mut [u8], input: &[u8]) {
    let mut at = 0;
    while 2 <= input.len() - at {
        let size = octets::word(input, at) as usize;
        let start = at + 2;
        if input.len() - start < size {
            return;
        }
        list(out, &input[start..start + size]);
        at = start + size;
    }
}

fn main() {
    let mut out = io::large_buffer();
    let mut input = io::large_buffer();
    let n = io::read_full(0, &mut input);
    list_all(&mut out, &input[..n]);
}
