ghost use Rattle.std.specs.Prelude.{◌≡◌, true, cond, None, Some};
ghost use Rattle.vectors.specs.Vector.{finite_vec, has_numbers, Numbers, add_of, sub_of, scale_of, min_of, max_of, abs_of};
ghost use Rattle.vectors.specs.Vector.{max_element, dot_of, checked_dot, cross_of, normalizable, tells_length, scaled_to_one, over_length};
ghost use Rattle.vectors.specs.Vector.{try_normalize};

use arithmetic::{basic, extremes, scaling, square_root};

// Laid out as C does: a part of a cabinet (crates/cabinet) has its origin in it.
#[repr(C)]
#[derive(Clone, Copy, PartialEq)]
pub struct Vec3 {
    pub x: f64,
    pub y: f64,
    pub z: f64,
}

// Between these squares, each of which is far from what cannot be told, a square tells its vector's length.
const LEAST_SQUARE: f64 = 1.0e-300;

const GREATEST_SQUARE: f64 = 1.0e300;

// Whether a vector's dot with itself lies between them, so that it tells the length. After a no the callers take the way for any vector.
#[tactic(auto, unfolding(crate::specs::Vector::tells_length))]
pub fn tells_length(square: f64) -> bool
    ensures { result ≡ tells_length square }
{
    square >= LEAST_SQUARE && square <= GREATEST_SQUARE
}

impl Vec3 {
    #[tactic(auto, unfolding(crate::specs::Vector::finite_vec))]
    pub fn is_finite(self) -> bool
        ensures { result ≡ finite_vec self }
    {
        basic::is_finite(self.x) && basic::is_finite(self.y) && basic::is_finite(self.z)
    }

    // Whether no component is NaN.
    #[tactic(auto, unfolding(crate::specs::Vector::has_numbers))]
    pub fn has_numbers(self) -> bool
        ensures { result ≡ has_numbers self }
    {
        !self.x.is_nan() && !self.y.is_nan() && !self.z.is_nan()
    }

    #[tactic(auto, unfolding(crate::specs::Vector::add_of))]
    pub fn add(self, other: Vec3) -> Vec3
        ensures { result ≡ add_of self other }
    {
        Vec3 {
            x: self.x + other.x,
            y: self.y + other.y,
            z: self.z + other.z,
        }
    }

    #[tactic(auto, unfolding(crate::specs::Vector::sub_of))]
    pub fn sub(self, other: Vec3) -> Vec3
        ensures { result ≡ sub_of self other }
    {
        Vec3 {
            x: self.x - other.x,
            y: self.y - other.y,
            z: self.z - other.z,
        }
    }

    #[tactic(auto, unfolding(crate::specs::Vector::scale_of))]
    pub fn scale(self, factor: f64) -> Vec3
        ensures { result ≡ scale_of self factor }
    {
        Vec3 {
            x: self.x * factor,
            y: self.y * factor,
            z: self.z * factor,
        }
    }

    // On each axis by itself, as `max`, `least`, `greatest` and `abs` are: a function over the operation would be no plainer than the three
    // lines.
    #[tactic(auto, unfolding(crate::specs::Vector::min_of))]
    pub fn min(self, other: Vec3) -> Vec3
        ensures { result ≡ min_of self other }
    {
        Vec3 {
            x: extremes::minimum(self.x, other.x),
            y: extremes::minimum(self.y, other.y),
            z: extremes::minimum(self.z, other.z),
        }
    }

    #[tactic(auto, unfolding(crate::specs::Vector::max_of))]
    pub fn max(self, other: Vec3) -> Vec3
        ensures { result ≡ max_of self other }
    {
        Vec3 {
            x: extremes::maximum(self.x, other.x),
            y: extremes::maximum(self.y, other.y),
            z: extremes::maximum(self.z, other.z),
        }
    }

    // `min` where this vector has no NaN, as callers show, and again without one: one instruction a component.
    #[tactic(auto, unfolding(crate::specs::Vector::min_of))]
    pub fn least(self, other: Vec3) -> Vec3
        requires { Numbers self }
        ensures { (result ≡ min_of self other) × Numbers result }
    {
        Vec3 {
            x: extremes::lesser(self.x, other.x),
            y: extremes::lesser(self.y, other.y),
            z: extremes::lesser(self.z, other.z),
        }
    }

    // `max` where this vector has no NaN, and again without one.
    #[tactic(auto, unfolding(crate::specs::Vector::max_of))]
    pub fn greatest(self, other: Vec3) -> Vec3
        requires { Numbers self }
        ensures { (result ≡ max_of self other) × Numbers result }
    {
        Vec3 {
            x: extremes::greater(self.x, other.x),
            y: extremes::greater(self.y, other.y),
            z: extremes::greater(self.z, other.z),
        }
    }

    #[tactic(auto, unfolding(crate::specs::Vector::abs_of))]
    pub fn abs(self) -> Vec3
        ensures { result ≡ abs_of self }
    {
        Vec3 {
            x: basic::abs(self.x),
            y: basic::abs(self.y),
            z: basic::abs(self.z),
        }
    }

    #[tactic(auto, unfolding(crate::specs::Vector::max_element))]
    pub fn max_element(self) -> f64
        ensures { result ≡ max_element self }
    {
        extremes::maximum(extremes::maximum(self.x, self.y), self.z)
    }

    #[tactic(auto, unfolding(crate::specs::Vector::dot_of))]
    pub fn dot(self, other: Vec3) -> f64
        ensures { result ≡ dot_of self other }
    {
        self.x * other.x + self.y * other.y + self.z * other.z
    }

    #[tactic(auto, unfolding(crate::specs::Vector::checked_dot))]
    pub fn checked_dot(self, other: Vec3) -> Option<f64>
        ensures { result ≡ checked_dot self other }
    {
        let value = self.dot(other);
        basic::is_finite(value).then_some(value)
    }

    #[tactic(auto, unfolding(crate::specs::Vector::cross_of))]
    pub fn cross(self, other: Vec3) -> Vec3
        ensures { result ≡ cross_of self other }
    {
        Vec3 {
            x: self.y * other.z - self.z * other.y,
            y: self.z * other.x - self.x * other.z,
            z: self.x * other.y - self.y * other.x,
        }
    }

    // Whether the vector can be normalised: it is finite, and not zero.
    pub fn is_normalizable(self) -> bool
        ensures { result ≡ normalizable self }
    {
        self.is_finite() && (self.x != 0.0 || self.y != 0.0 || self.z != 0.0)
    }

    // The same where the dot tells most: one comparison or two.
    pub fn has_direction(self) -> bool
        ensures { result ≡ normalizable self }
    {
        tells_length(self.dot(self)) || self.is_normalizable()
    }

    // The vector times the power of two that brings its largest component to at least 1 and below 2.
    fn scaled_to_one(self) -> Vec3
        requires { normalizable self ≡ true }
        ensures { result ≡ scaled_to_one self }
    {
        let largest = self.abs().max_element();
        Vec3 {
            x: scaling::scaled(self.x, largest),
            y: scaling::scaled(self.y, largest),
            z: scaling::scaled(self.z, largest),
        }
    }

    // The vector divided by its length, where its dot with itself is `square`.
    #[tactic(auto, using(crate::proofs::NormalLaws::over_told))]
    fn over_length(self, square: f64) -> Vec3
        requires { square ≡ dot_of self self }
        ensures { result ≡ over_length self }
    {
        let length = square_root::root(square);
        Vec3 {
            x: self.x / length,
            y: self.y / length,
            z: self.z / length,
        }
    }

    // What is left where the dot does not tell: the vector is scaled first.
    fn normalize_scaled(self) -> Option<Vec3>
        ensures { result ≡ cond (normalizable self) (Some (over_length (scaled_to_one self))) None }
    {
        if !self.is_normalizable() {
            return None;
        }
        let scaled = self.scaled_to_one();
        Some(scaled.over_length(scaled.dot(scaled)))
    }

    // A dot that tells the length, which nearly all do, is told without the test for zero. Each test has its own call: with one call for
    // both, the scaled way is compiled into this, which took more than twice the time.
    pub fn try_normalize(self) -> Option<Vec3>
        ensures { result ≡ try_normalize self }
    {
        let dot = self.dot(self);
        if !basic::is_finite(dot) {
            return self.normalize_scaled();
        }
        if dot < f64::MIN_POSITIVE {
            return self.normalize_scaled();
        }
        Some(self.over_length(dot))
    }

    // The same, small enough to be compiled into a cast: what the dot does not tell is left to a call.
    #[tactic(auto, using(crate::proofs::NormalLaws::told_unit, crate::proofs::NormalLaws::between_tells))]
    pub fn normalize(self) -> Option<Vec3>
        ensures { result ≡ try_normalize self }
    {
        let square = self.dot(self);
        if tells_length(square) {
            return Some(self.over_length(square));
        }
        self.try_normalize()
    }
}
