// The coordinates of a polygon's points.
ghost use Rattle.std.specs.Prelude.{◌≤◌, ◌<◌, ℕ, get_or};
ghost use Rattle.field_reports.specs.Points.{Filled, LatitudesReported, LongitudesReported};
ghost use Rattle.reports.specs.Points.{LatitudesHeld, LongitudesHeld};

use ground::{LatitudeCode, LongitudeCode, Nanodegrees};

// The latitudes of the first n, and zeros.
pub fn latitudes(codes: [LatitudeCode; 15], n: u8) -> [Nanodegrees; 15]
    requires n_bound { n ≤ 15 }
    requires latitudes_held { LatitudesHeld codes n }
    ensures { LatitudesReported codes n result }
{
    reported(codes, n, field_reports::latitude)
}

// The longitudes of the first n, and zeros.
pub fn longitudes(codes: [LongitudeCode; 15], n: u8) -> [Nanodegrees; 15]
    requires n_bound { n ≤ 15 }
    requires longitudes_held { LongitudesHeld codes n }
    ensures { LongitudesReported codes n result }
{
    reported(codes, n, field_reports::longitude)
}

// What is reported of the first n, and zeros.
fn reported<C: Copy, F: Fn(C) -> Nanodegrees>(codes: [C; 15], n: u8, report: F) -> [Nanodegrees; 15]
    requires n_bound { n ≤ 15 }
    requires callable { (i : ℕ) (none : C) → i < n → F.pre report (get_or codes i none) }
    ensures { (none : C) → Filled (λ i x. F.post report (get_or codes i none) x) n result }
{
    let mut reported = [Nanodegrees(0); 15];
    for i in 0..n as usize {
        reported[i] = report(codes[i]);
    }
    reported
}
