// The points of a polygon, stored.
ghost use Rattle.std.specs.Prelude.{◌≡◌, ◌+◌, ◌*◌, ◌≤◌, length};
ghost use Rattle.std.proofs.lemmas.List.Edits.{sets};
ghost use Rattle.code_arrays.specs.Shapes.{value_in, record_in};
ghost use Rattle.layout.specs.Layout.{count};
ghost use Rattle.limits.specs.Limits.{UsedWithin};
ghost use Rattle.composing.specs.Composing.{positions};

use ground::LatitudeCode;

// Stores six octets for each point, after the first octet.
pub fn store_points(out: &mut [u8], codes: &[u32])
    requires in_bounds { 61 ≤ length codes.now }
    requires count_bound { value_in codes.now count ≤ 15 }
    requires count_in_bounds { 1 + 6 * value_in codes.now count ≤ length out.old }
    requires used_within { UsedWithin codes.now (value_in codes.now count) }
    ensures { out.new ≡ sets out.old 1 (positions (record_in codes.now).latitudes (record_in codes.now).longitudes (value_in codes.now count)) }
{
    let end = codes[1] as usize;
    for i in 0..end {
        let at = 16 + 3 * i;
        let latitude = LatitudeCode(codes[at] == 1, codes[at + 1]);
        let longitude = code_arrays::longitude_of(codes[at + 2]);
        octets::put_position(out, 1 + 6 * i, latitude, longitude);
    }
}
