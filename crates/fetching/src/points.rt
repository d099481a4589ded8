// A polygon's record.
ghost use Rattle.std.specs.Prelude.{◌≡◌, ◌+◌, ◌*◌, ◌≤◌, length};
ghost use Rattle.fetching.specs.Fetching.{polygon_of};

use layout::{Kind, Shape};

// The record of the first n points.
pub fn polygon(s: &[u8], n: u8) -> Shape
    requires n_bound { n ≤ 15 }
    requires n_in_bounds { 1 + 6 * n ≤ length s.now }
    ensures { result ≡ polygon_of n s.now }
{
    let mut shape = layout::blank_shape(Kind::Polygon);
    shape.count = n;
    for i in 0..n as usize {
        let latitude = octets::latitude_at(s, 1 + 6 * i);
        let longitude = octets::longitude_at(s, 4 + 6 * i);
        shape.latitudes[i] = latitude;
        shape.longitudes[i] = longitude;
    }
    shape
}
