ghost use Rattle.std.specs.Prelude.{◌≡◌};
ghost use Rattle.geometry.specs.Box.{valid_side, valid_box, touch_side, touches, within_side, encloses, same_side, same_box, union_of};
ghost use Rattle.geometry.specs.Box.{centre, corners_box};

use arithmetic::basic;
use vectors::vec3::Vec3;

// The box of all points from min to max on every axis.
#[derive(Clone, Copy, PartialEq)]
pub struct Aabb {
    pub min: Vec3,
    pub max: Vec3,
}

// The rule of `is_valid` on one axis.
#[tactic(auto, unfolding(crate::specs::Box::valid_side))]
pub fn valid_side(low: f64, high: f64) -> bool
    ensures { result ≡ valid_side low high }
{
    basic::is_finite(low) && basic::is_finite(high) && low <= high
}

// The rule of `touches` on one axis.
#[tactic(auto, unfolding(crate::specs::Box::touch_side))]
pub fn touch_side(low: f64, high: f64, from: f64, to: f64) -> bool
    ensures { result ≡ touch_side low high from to }
{
    low <= to && from <= high
}

// The rule of `encloses` on one axis.
#[tactic(auto, unfolding(crate::specs::Box::within_side))]
pub fn within_side(low: f64, high: f64, from: f64, to: f64) -> bool
    ensures { result ≡ within_side low high from to }
{
    low <= from && to <= high
}

// The rule of `same` on one axis.
#[tactic(auto, unfolding(crate::specs::Box::same_side))]
pub fn same_side(low: f64, high: f64, from: f64, to: f64) -> bool
    ensures { result ≡ same_side low high from to }
{
    low == from && high == to
}

impl Aabb {
    // Finite corners, min at most max.
    #[tactic(auto, unfolding(crate::specs::Box::valid_box))]
    pub fn is_valid(self) -> bool
        ensures { result ≡ valid_box self }
    {
        valid_side(self.min.x, self.max.x)
            && valid_side(self.min.y, self.max.y)
            && valid_side(self.min.z, self.max.z)
    }

    // Whether the closed boxes have a point in common; a NaN side never touches. This and `encloses` ask one rule on three axes: a function
    // over the rule would be no plainer than the three lines.
    #[tactic(auto, unfolding(crate::specs::Box::touches))]
    pub fn touches(self, other: Aabb) -> bool
        ensures { result ≡ touches self other }
    {
        touch_side(self.min.x, self.max.x, other.min.x, other.max.x)
            && touch_side(self.min.y, self.max.y, other.min.y, other.max.y)
            && touch_side(self.min.z, self.max.z, other.min.z, other.max.z)
    }

    // Whether the other box lies within this one.
    #[tactic(auto, unfolding(crate::specs::Box::encloses))]
    pub fn encloses(self, inner: Aabb) -> bool
        ensures { result ≡ encloses self inner }
    {
        within_side(self.min.x, self.max.x, inner.min.x, inner.max.x)
            && within_side(self.min.y, self.max.y, inner.min.y, inner.max.y)
            && within_side(self.min.z, self.max.z, inner.min.z, inner.max.z)
    }

    // Whether the corners are equal under IEEE 754: -0 equals +0, and NaN nothing.
    #[tactic(auto, unfolding(crate::specs::Box::same_box, crate::specs::Box::same_side))]
    pub fn same(self, other: Aabb) -> bool
        ensures { result ≡ same_box self other }
    {
        self == other
    }

    // The box around both.
    #[tactic(auto, unfolding(crate::specs::Box::union_of))]
    pub fn union(self, other: Aabb) -> Aabb
        ensures { result ≡ union_of self other }
    {
        Aabb {
            min: self.min.min(other.min),
            max: self.max.max(other.max),
        }
    }

    // min·0.5 + max·0.5, which does not overflow where (min + max)·0.5 would.
    #[tactic(auto, unfolding(crate::specs::Box::centre))]
    pub fn center(self) -> Vec3
        ensures { result ≡ centre self }
    {
        self.min.scale(0.5).add(self.max.scale(0.5))
    }

    // The box of three corners, valid or not.
    #[tactic(auto, unfolding(crate::specs::Box::corners_box))]
    pub fn of_corners(corners: [Vec3; 3]) -> Aabb
        ensures { result ≡ corners_box corners }
    {
        let [first, second, third] = corners;
        Aabb {
            min: first.min(second).min(third),
            max: first.max(second).max(third),
        }
    }
}
