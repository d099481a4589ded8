// The codes of a polygon's points.
ghost use Rattle.std.specs.Prelude.{◌≤◌, length};
ghost use Rattle.ground.specs.Answers.{Decides};
ghost use Rattle.array_records.specs.Records.{UsedKept, NoQuantitiesFrom, UsedInRange, PointsInRange, PutsPointCodes};

use ground::Nanodegrees;

// Whether the first n points are in range, and the others zero.
pub fn in_range(given: &[i64], n: u8) -> bool
    requires in_bounds { 44 ≤ length given.now }
    requires n_bound { n ≤ 15 }
    ensures { PointsInRange given.now n result }
{
    let end = n as usize;
    if !used_in_range(given, end) {
        return false;
    }
    none_from(given, 14 + 2 * end)
}

fn used_in_range(given: &[i64], end: usize) -> bool
    requires in_bounds { 44 ≤ length given.now }
    requires end_bound { end ≤ 15 }
    ensures { UsedInRange given.now end result }
{
    for i in 0..end {
        let latitude = Nanodegrees(given[14 + 2 * i]);
        let longitude = Nanodegrees(given[15 + 2 * i]);
        if outline_codes::code_point(true, latitude, longitude).is_err() {
            return false;
        }
    }
    true
}

// Every element is looked at whatever the others are, so that the compiler takes them together.
fn none_from(given: &[i64], first: usize) -> bool
    requires in_bounds { 44 ≤ length given.now }
    requires first_bound { first ≤ 44 }
    ensures { Decides result (NoQuantitiesFrom given.now first) }
{
    let mut all = true;
    for element in &given[first..44] {
        if *element != 0 {
            all = false;
        }
    }
    all
}

// Puts the elements of the first n points, which are in range.
pub fn put_coded_points(out: &mut [u32], given: &[i64], n: u8)
    requires in_bounds { 61 ≤ length out.old }
    requires in_bounds_2 { 44 ≤ length given.now }
    requires n_bound { n ≤ 15 }
    requires used_kept { UsedKept given.now n }
    ensures { PutsPointCodes given.now n out.old out.new }
{
    for i in 0..n as usize {
        let latitude = Nanodegrees(given[14 + 2 * i]);
        let longitude = Nanodegrees(given[15 + 2 * i]);
        let code = outline_codes::code_point(true, latitude, longitude).unwrap();
        code_arrays::put_point(out, i, code.latitude, code.longitude);
    }
}
