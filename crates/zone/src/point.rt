// A point of the question: signed here, and from here on moved up by half its range.
ghost use Rattle.std.specs.Prelude.{true, ◌≡◌, ◌≤◌, pos, neg_ℤ};
ghost use Rattle.std.specs.Int.Signed.{le_z};
ghost use Rattle.signed.specs.inner.Difference.{difference};
ghost use Rattle.zone.specs.Answer.{on_map};

// Whether lon and lat are in their ranges.
pub fn on_map(lon: i64, lat: i64) -> bool
    ensures { result ≡ on_map (record { lon = lon; lat = lat }) }
{
    if lon < -180_000_000 {
        return false;
    }
    if 180_000_000 < lon {
        return false;
    }
    if lat < -90_000_000 {
        return false;
    }
    lat <= 90_000_000
}

// A number from -half to half, moved up by half.
pub fn raised(v: i64, half: u64) -> u64
    requires { (half ≤ 180_000_000) × (le_z (neg_ℤ (pos half)) v ≡ true) × (le_z v (pos half) ≡ true) }
    ensures { difference result half ≡ v }
{
    (v + half as i64) as u64
}
