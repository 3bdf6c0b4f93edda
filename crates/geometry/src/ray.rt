ghost use Rattle.std.specs.Prelude.{◌≡◌, true};
ghost use Rattle.geometry.specs.Segment.{close_to_unit_length, range_admitted, ray_admitted, segment_end, segment_box};
ghost use Rattle.vectors.specs.Vector.{finite_vec};

use crate::aabb::Aabb;
use arithmetic::basic;
use vectors::vec3::Vec3;

#[derive(Clone, Copy)]
pub struct Ray {
    pub origin: Vec3,
    pub direction: Vec3,
    pub max_distance: f64,
    pub near: f64,
}

// The least and the greatest square whose root is not more than 1e-12 from 1. The roots of the next floats outside are.
// The root grows with the square, so that the square tells.
const LEAST_UNIT_SQUARE: f64 = 0.999999999998;

const GREATEST_UNIT_SQUARE: f64 = 1.000000000002;

// Whether a vector's length is within 1e-12 of 1; a NaN length is not.
pub fn close_to_unit_length(vector: Vec3) -> bool
    ensures { result ≡ close_to_unit_length vector }
{
    let square = vector.dot(vector);
    square >= LEAST_UNIT_SQUARE && square <= GREATEST_UNIT_SQUARE
}

// Whether a vector is finite, by one comparison: a finite number less itself is 0, any other is NaN, and a NaN stays in the sum.
#[tactic(auto, using(crate::proofs::Differences::differences_tell))]
fn all_finite(vector: Vec3) -> bool
    ensures { result ≡ finite_vec vector }
{
    (vector.x - vector.x) + (vector.y - vector.y) + (vector.z - vector.z) == 0.0
}

impl Ray {
    // Whether refusal 1 lets the ray pass. A direction whose length is close to 1 is finite.
    pub fn validate(self) -> bool
        ensures { result ≡ ray_admitted self }
    {
        all_finite(self.origin) && close_to_unit_length(self.direction) && self.range_admitted()
    }

    // Whether the maximum and the near distance are admitted: each finite and at least 0, near not above the maximum.
    // A near distance from 0 to a finite maximum is finite itself, and the maximum at least 0.
    pub fn range_admitted(self) -> bool
        ensures { result ≡ range_admitted self }
    {
        0.0 <= self.near && self.near <= self.max_distance && basic::is_finite(self.max_distance)
    }

    // origin + direction·maximum.
    #[tactic(auto, unfolding(crate::specs::Segment::segment_end))]
    pub fn segment_end(self) -> Vec3
        ensures { result ≡ segment_end self }
    {
        self.origin.add(self.direction.scale(self.max_distance))
    }

    // The box of origin and end, for a ray whose origin is finite and whose end is known.
    pub fn segment_box(self, end: Vec3) -> Aabb
        requires { (finite_vec self.origin ≡ true) × (end ≡ segment_end self) }
        ensures { result ≡ segment_box self }
    {
        Aabb {
            min: self.origin.least(end),
            max: self.origin.greatest(end),
        }
    }
}
