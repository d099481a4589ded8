// Whether the numbers of points are within their fields.
ghost use Rattle.std.specs.Prelude.{◌+◌, ◌*◌, ◌≤◌, length};
ghost use Rattle.ground.specs.Answers.{Decides};
ghost use Rattle.limits.specs.Limits.{PointsWithin, UsedWithin, NoCodesFrom};

// Whether the first n points are within their fields, and the others zero.
pub fn within(codes: &[u32], n: usize) -> bool
    requires in_bounds { 61 ≤ length codes.now }
    requires n_bound { n ≤ 15 }
    ensures { Decides result (PointsWithin codes.now n) }
{
    used_within(codes, n) && none_from(codes, 16 + 3 * n)
}

fn used_within(codes: &[u32], n: usize) -> bool
    requires in_bounds { 61 ≤ length codes.now }
    requires n_bound { n ≤ 15 }
    ensures { Decides result (UsedWithin codes.now n) }
{
    for i in 0..n {
        let at = 16 + 3 * i;
        if 1 < codes[at] {
            return false;
        }
        if 8388607 < codes[at + 1] {
            return false;
        }
        if 16777215 < octets::complement_of(code_arrays::longitude_of(codes[at + 2])) {
            return false;
        }
    }
    true
}

// Every element is looked at whatever the others are, as the numbers of fields are.
fn none_from(codes: &[u32], first: usize) -> bool
    requires in_bounds { 61 ≤ length codes.now }
    requires first_bound { first ≤ 61 }
    ensures { Decides result (NoCodesFrom codes.now first) }
{
    let mut all = true;
    for code in &codes[first..61] {
        if *code != 0 {
            all = false;
        }
    }
    all
}
