ghost use Rattle.std.specs.Prelude.{◌≡◌, false, cond};
ghost use Rattle.std.specs.Float.Ieee.{is_nan};
ghost use Rattle.casts.specs.Answer.{none, says};
ghost use Rattle.vectors.specs.Vector.{vector, sub_of};
ghost use Rattle.geometry.specs.Box.{corner};
ghost use Rattle.geometry.specs.declared.ray.Ray.{Ray as RayOf};
ghost use Rattle.casts.specs.Reach.{reach_of, says_reach};
ghost use Rattle.triangle_cast.specs.Crossing.{crossing_answer, within_answer, distance_within, settled_answer};
ghost use Rattle.triangle_cast.specs.Size.{or_size, size_from_one};
ghost use Rattle.triangle_cast.specs.Triangle.{flat, triangle_normal, has_normal, triangle_at, triangle_cast, ray_triangle};

use crate::parts::{Crossing, Within};
use arithmetic::{basic, extremes};
use casts::answer::{Cast, Hit, Reach, Refusal};
use casts::surface;
use geometry::ray::Ray;
use vectors::numbers;
use vectors::vec3::Vec3;

// The larger of a number and another's size, by two comparisons: neither asks for NaN, which leaves the number.
fn at_least_size(number: f64, x: f64) -> f64
    requires { is_nan number ≡ false }
    ensures { (result ≡ or_size number x) × (is_nan result ≡ false) }
{
    extremes::greater(extremes::greater(number, x), -x)
}

// The largest of 1 and a vector's components in size.
#[tactic(auto, unfolding(crate::specs::Size::size_from_one))]
fn size_from_one(v: Vec3) -> f64
    ensures { (result ≡ size_from_one v) × (is_nan result ≡ false) }
{
    at_least_size(at_least_size(at_least_size(1.0, v.x), v.y), v.z)
}

// Whether the determinant is too small for the edges' scale. It is compiled into each of its users, since it stands in every cast.
#[inline(always)]
#[tactic(auto, using(crate::proofs::FlatLaws::flat_by_size))]
pub fn is_flat(determinant: f64, a: Vec3, b: Vec3) -> bool
    ensures { result ≡ flat determinant a b }
{
    let scale = extremes::greater(size_from_one(a), size_from_one(b));
    basic::abs(determinant) <= scale * numbers::EPSILON * 32.0
}

// The hit at a distance: the edges' normal, flipped to face the ray.
#[tactic(auto, unfolding(crate::specs::Triangle::triangle_normal))]
pub fn triangle_normal(ray: Ray, a: Vec3, b: Vec3, distance: f64) -> Cast
    ensures { says result ≡ triangle_normal ray a b distance }
{
    let Some(normal) = a.cross(b).normalize() else {
        return Err(Refusal::NoNormal);
    };
    Ok(Some(Hit {
        normal: surface::facing(normal, ray.direction.dot(normal)),
        distance,
    }))
}

// Whether the edges' normal can be told: decided by their cross alone, without the root.
#[tactic(auto, unfolding(crate::specs::Triangle::has_normal))]
fn has_normal(a: Vec3, b: Vec3) -> bool
    ensures { result ≡ has_normal a b }
{
    a.cross(b).has_direction()
}

// The distance where u is in range: v, the sum of both and the range are tested. Small, so that it is compiled into each user.
#[tactic(auto, unfolding(crate::specs::Crossing::distance_within))]
pub fn distance_within(
    ray: Ray,
    offset: Vec3,
    a: Vec3,
    b: Vec3,
    inverse: f64,
    u: f64,
) -> Option<f64>
    ensures { result ≡ distance_within ray offset a b inverse u }
{
    let q = offset.cross(a);
    let v = ray.direction.dot(q) * inverse;
    if v < 0.0 {
        return None;
    }
    if u + v > 1.0 {
        return None;
    }
    let distance = b.dot(q) * inverse;
    if surface::off_segment(ray, distance) {
        return None;
    }
    Some(distance)
}

// What is left at a distance, without the normal, and so without its root. The edges come by their numbers: a call that is not inlined
// takes numbers in registers, where a vector would go through memory, and its reader would wait for the writer.
// A flat determinant is a miss like what is tested before it, so the test for it, which takes longest, comes after them.
// A NaN distance of a flat triangle is a miss too, and else 6, so NaN is tested last.
#[tactic(auto, using(crate::proofs::ReachLaws::reach_by_normal), unfolding(casts::specs::Reach::reach_of))]
pub fn settled(
    determinant: f64,
    a_x: f64,
    a_y: f64,
    a_z: f64,
    b_x: f64,
    b_y: f64,
    b_z: f64,
    distance: f64,
) -> Reach
    ensures { (s : RayOf) → says_reach result ≡ reach_of (settled_answer s determinant (vector a_x a_y a_z) (vector b_x b_y b_z)
        distance) }
{
    let a = Vec3 {
        x: a_x,
        y: a_y,
        z: a_z,
    };
    let b = Vec3 {
        x: b_x,
        y: b_y,
        z: b_z,
    };
    if is_flat(determinant, a, b) {
        return Ok(None);
    }
    if distance.is_nan() {
        return Err(Refusal::Overflow);
    }
    if has_normal(a, b) {
        return Ok(Some(distance));
    }
    Err(Refusal::NoNormal)
}

// The hit at a distance, as `triangle_normal` finds it, where the determinant is known: but for its sign and for rounding that is the
// direction's dot with the edges' cross, and so tells beforehand whether the normal is to be flipped.
#[inline(always)]
#[tactic(auto, unfolding(crate::specs::Triangle::triangle_normal))]
pub fn normal_by(ray: Ray, determinant: f64, a: Vec3, b: Vec3, distance: f64) -> Cast
    ensures { says result ≡ triangle_normal ray a b distance }
{
    let Some(normal) = a.cross(b).normalize() else {
        return Err(Refusal::NoNormal);
    };
    Ok(Some(Hit {
        normal: surface::facing_as(normal, ray.direction.dot(normal), determinant < 0.0),
        distance,
    }))
}

// The same with the normal, which takes longest and so is begun first: what comes here is nearly always a hit.
#[inline(always)]
fn settled_cast(ray: Ray, determinant: f64, a: Vec3, b: Vec3, distance: f64) -> Cast
    ensures { says result ≡ settled_answer ray determinant a b distance }
{
    let hit = normal_by(ray, determinant, a, b, distance);
    if is_flat(determinant, a, b) {
        return Ok(None);
    }
    if distance.is_nan() {
        return Err(Refusal::Overflow);
    }
    hit
}

// What the first test tells where the determinant is finite; a NaN u is a miss.
#[tactic(auto, using(crate::proofs::ReachLaws::none_either_way), unfolding(crate::specs::Triangle::triangle_at))]
fn crossing_at(offset: Vec3, a: Vec3, b: Vec3, p: Vec3, determinant: f64) -> Crossing
    ensures { (s : RayOf) → crossing_answer s result ≡ cond (flat determinant a b) none (triangle_at s offset a b p determinant) }
{
    let inverse = 1.0 / determinant;
    let u = offset.dot(p) * inverse;
    if 0.0 <= u && u <= 1.0 {
        return Ok(Some(Within {
            offset,
            a,
            b,
            determinant,
            inverse,
            u,
        }));
    }
    Ok(None)
}

// The first of the triangle's tests, at which most triangles miss: small, so that it is inlined at each user, and what is left stays out of
// line.
#[tactic(auto, unfolding(crate::specs::Triangle::triangle_of))]
pub fn crossing(ray: Ray, corners: [Vec3; 3]) -> Crossing
    ensures { crossing_answer ray result ≡ triangle_cast ray corners }
{
    let [first, second, third] = corners;
    let a = second.sub(first);
    let b = third.sub(first);
    let p = ray.direction.cross(b);
    let Some(determinant) = a.checked_dot(p) else {
        return Err(Refusal::Overflow);
    };
    crossing_at(ray.origin.sub(first), a, b, p, determinant)
}

// What is left after the first test, without the normal, and so without its root: what the mesh and the height grid ask first of each
// triangle.
pub fn reach_within(ray: Ray, within: Within) -> Reach
    ensures { says_reach result ≡ reach_of (within_answer ray within) }
{
    let Within {
        offset,
        a,
        b,
        determinant,
        inverse,
        u,
    } = within;
    let Some(distance) = distance_within(ray, offset, a, b, inverse, u) else {
        return Ok(None);
    };
    settled(determinant, a.x, a.y, a.z, b.x, b.y, b.z, distance)
}

// What is left after the first test, with the normal.
#[inline(always)]
fn cast_within(ray: Ray, within: Within) -> Cast
    ensures { says result ≡ within_answer ray within }
{
    let Within {
        offset,
        a,
        b,
        determinant,
        inverse,
        u,
    } = within;
    let Some(distance) = distance_within(ray, offset, a, b, inverse, u) else {
        return Ok(None);
    };
    settled_cast(ray, determinant, a, b, distance)
}

// The hit at the distance that the corners are reached at. It is compiled into its users: a call would be handed the corners through
// memory.
#[inline(always)]
pub fn hit_at(ray: Ray, corners: [Vec3; 3], distance: f64) -> Cast
    ensures { says result ≡ triangle_normal ray (sub_of (corner corners 1) (corner corners 0))
        (sub_of (corner corners 2) (corner corners 0)) distance }
{
    let [first, second, third] = corners;
    triangle_normal(ray, second.sub(first), third.sub(first), distance)
}

// The Rust's ray_triangle, with nothing tested before it. It is compiled into each of its users, and what it calls into it: a call would
// hand the ray and the corners over through memory.
#[inline(always)]
pub fn triangle_cast(ray: Ray, corners: [Vec3; 3]) -> Cast
    ensures { says result ≡ triangle_cast ray corners }
{
    let Some(within) = crossing(ray, corners)? else {
        return Ok(None);
    };
    cast_within(ray, within)
}

// The cast of any ray at any three corners.
#[tactic(auto, unfolding(crate::specs::Triangle::ray_triangle))]
pub fn ray_triangle(ray: Ray, corners: [Vec3; 3]) -> Cast
    ensures { says result ≡ ray_triangle ray corners }
{
    if !ray.validate() {
        return Err(Refusal::InvalidInput);
    }
    triangle_cast(ray, corners)
}
