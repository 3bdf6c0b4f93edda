ghost use Rattle.std.specs.Prelude.{◌≡◌, true};
ghost use Rattle.exact_depth.specs.Sides.{OneSide};

// Whether all three are above 0, or all below: what a yes means is the clause.
pub fn one_side(x: i64, y: i64, z: i64) -> bool
    ensures { result ≡ true → OneSide x y z }
{
    (0 < x && 0 < y && 0 < z) || (x < 0 && y < 0 && z < 0)
}
