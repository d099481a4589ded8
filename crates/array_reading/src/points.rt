// The elements of a polygon's points.
ghost use Rattle.std.specs.Prelude.{◌≡◌, ◌+◌, ◌*◌, ◌≤◌, length};
ghost use Rattle.std.proofs.lemmas.List.Edits.{sets};
ghost use Rattle.fetching.specs.Fetching.{latitudes_of, longitudes_of};
ghost use Rattle.code_arrays.specs.Shapes.{point_elements};

// Puts the elements of the first n points of a message.
pub fn put_read_points(out: &mut [u32], s: &[u8], n: u8)
    requires in_bounds { 61 ≤ length out.old }
    requires n_bound { n ≤ 15 }
    requires n_in_bounds { 1 + 6 * n ≤ length s.now }
    ensures { out.new ≡ sets out.old 16 (point_elements (latitudes_of n s.now) (longitudes_of n s.now) n) }
{
    for i in 0..n as usize {
        let latitude = octets::latitude_at(s, 1 + 6 * i);
        let longitude = octets::longitude_at(s, 4 + 6 * i);
        code_arrays::put_point(out, i, latitude, longitude);
    }
}
