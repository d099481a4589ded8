// Numbers out, each after a space.
use ground::Whole;

pub fn octets(octets: &[u8]) {
    for n in octets {
        octet(*n);
    }
}

pub fn codes(codes: &[u32]) {
    for n in codes {
        code(*n);
    }
}

pub fn quantities(quantities: &[i64]) {
    for n in quantities {
        whole(Whole(*n));
    }
}

pub fn whole(x: Whole) {
    let parts = ground::taken_apart(x);
    if parts.negative {
        io::write_all(1, b" -");
        io::print_decimal(1, parts.size);
        return;
    }
    natural(parts.size);
}

fn octet(n: u8) {
    natural(n as u64);
}

fn code(n: u32) {
    natural(n as u64);
}

fn natural(n: u64) {
    io::write_all(1, b" ");
    io::print_decimal(1, n);
}
