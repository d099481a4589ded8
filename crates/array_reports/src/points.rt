// The coordinates of a polygon's points.
ghost use Rattle.std.specs.Prelude.{◌≤◌, length};
ghost use Rattle.limits.specs.Limits.{UsedWithin};
ghost use Rattle.array_reports.specs.Reports.{PutsPointQuantities};

use ground::LatitudeCode;

// Puts the coordinates of the first n points.
pub fn put_reported_points(out: &mut [i64], codes: &[u32], n: u8)
    requires in_bounds { 44 ≤ length out.old }
    requires in_bounds_2 { 61 ≤ length codes.now }
    requires n_bound { n ≤ 15 }
    requires used_within { UsedWithin codes.now n }
    ensures { PutsPointQuantities codes.now n out.old out.new }
{
    for i in 0..n as usize {
        let at = 16 + 3 * i;
        let latitude = field_reports::latitude(LatitudeCode(codes[at] == 1, codes[at + 1]));
        let longitude = field_reports::longitude(code_arrays::longitude_of(codes[at + 2]));
        let north = latitude.0;
        let east = longitude.0;
        out[14 + 2 * i] = north;
        out[15 + 2 * i] = east;
    }
}
