use casts::answer::Refusal;
use vectors::vec3::Vec3;

/// A triangle of which the first test has found u in range, with what the others need.
#[derive(Clone, Copy)]
pub struct Within {
    pub offset: Vec3,
    pub a: Vec3,
    pub b: Vec3,
    pub determinant: f64,
    pub inverse: f64,
    pub u: f64,
}

/// What the first test leaves of a triangle, a miss, or a refusal.
pub type Crossing = Result<Option<Within>, Refusal>;
