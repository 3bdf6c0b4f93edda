ghost use Rattle.std.specs.Prelude.{◌≡◌, cond};
ghost use Rattle.std.specs.Float.Ieee.{lt, neg};
ghost use Rattle.vectors.specs.Numbers.{zeroᶠ, oneᶠ};
ghost use Rattle.casts.specs.Surface.{off_segment, facing};

use geometry::ray::Ray;
use vectors::vec3::Vec3;

// Whether a distance is below near or above the maximum; NaN is neither.
#[tactic(auto, unfolding(crate::specs::Surface::off_segment))]
pub fn off_segment(ray: Ray, distance: f64) -> bool
    ensures { result ≡ off_segment ray distance }
{
    distance < ray.near || distance > ray.max_distance
}

// -1 where a normal is to be flipped, and else 1.
fn side(along: f64) -> f64
    ensures { result ≡ cond (lt zeroᶠ along) (neg oneᶠ) oneᶠ }
{
    if along > 0.0 {
        return -1.0;
    }
    1.0
}

// A component, flipped where `along` is positive: a product with 1 or -1 is exact, and takes no choice between vectors.
#[tactic(auto, using(crate::proofs::SideLaws::times_side))]
fn flipped(x: f64, along: f64) -> f64
    ensures { result ≡ cond (lt zeroᶠ along) (neg x) x }
{
    x * side(along)
}

// The normal, flipped where `along`, its dot with the direction, is positive: it faces the ray.
#[tactic(auto, using(crate::proofs::SideLaws::flipped_each), unfolding(crate::specs::Surface::facing))]
pub fn facing(normal: Vec3, along: f64) -> Vec3
    ensures { result ≡ facing normal along }
{
    Vec3 {
        x: flipped(normal.x, along),
        y: flipped(normal.y, along),
        z: flipped(normal.z, along),
    }
}

// The same, where `flips` tells beforehand whether the normal is to be flipped. It nearly always tells right, and a jump tells that it
// does, so that what is done with the normal need not wait for `along`; whatever it tells, the normal faces the ray.
#[tactic(auto, unfolding(crate::specs::Surface::facing, vectors::specs::Vector::neg_of))]
pub fn facing_as(normal: Vec3, along: f64, flips: bool) -> Vec3
    ensures { result ≡ facing normal along }
{
    if (0.0 < along) == flips {
        if flips {
            return Vec3 {
                x: -normal.x,
                y: -normal.y,
                z: -normal.z,
            };
        }
        return normal;
    }
    facing(normal, along)
}
