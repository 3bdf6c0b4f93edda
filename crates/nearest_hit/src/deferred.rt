ghost use Rattle.std.specs.Prelude.{◌≡◌, ℕ};
ghost use Rattle.geometry.specs.declared.ray.Ray.{Ray as RayOf};
ghost use Rattle.casts.specs.Answer.{hit, refused, number_of};
ghost use Rattle.nearest_hit.specs.Nearest.{says_indexed, next_of};
ghost use Rattle.triangle_cast.specs.Crossing.{within_answer, settled_answer};
ghost use Rattle.nearest_hit.specs.Deferred.{says_near, faced_indexed, unit_of, Measured, HitMeasured};
ghost use Rattle.triangle_cast.specs.Triangle.{triangle_cast};

use crate::nearest::{IndexedCast, IndexedHit};
use arithmetic::square_root;
use casts::answer::Refusal;
use casts::surface;
use geometry::ray::Ray;
use triangle_cast::parts::Within;
use triangle_cast::triangle;
use vectors::vec3;
use vectors::vec3::Vec3;

// A hit with the edges' cross and its dot with itself in place of the normal: the root is left for the hit that wins.
#[derive(Clone, Copy)]
pub struct NearHit {
    pub cross: Vec3,
    pub square: f64,
    pub distance: f64,
    pub index: u32,
}

// What was found so far.
pub type Near = Result<Option<NearHit>, Refusal>;

// One more hit, which takes the place of another only where it is strictly nearer.
#[tactic(auto, unfolding(crate::specs::Nearest::next_of))]
fn nearer(best: Near, index: u32, cross: Vec3, square: f64, distance: f64) -> Near
    ensures result_value { says_near result ≡ next_of (says_near best) index (hit cross distance) }
    ensures hit_measured { HitMeasured best → Measured cross square → HitMeasured result }
{
    let one = Ok(Some(NearHit {
        cross,
        square,
        distance,
        index,
    }));
    let Some(hit) = best? else {
        return one;
    };
    if distance < hit.distance {
        return one;
    }
    best
}

// A refusal, where none was met before.
#[tactic(auto, unfolding(crate::specs::Nearest::next_of))]
fn stopped(best: Near, refusal: Refusal) -> Near
    ensures by_index { (index : ℕ) → says_near result ≡ next_of (says_near best) index (refused (number_of refusal)) }
    ensures hit_measured { HitMeasured result }
{
    best?;
    Err(refusal)
}

// What was found so far and one more triangle that is reached at a distance.
fn next_at(best: Near, index: u32, determinant: f64, a: Vec3, b: Vec3, distance: f64) -> Near
    ensures result_value { (s : RayOf) → faced_indexed s (says_near result)
        ≡ next_of (faced_indexed s (says_near best)) index (settled_answer s determinant a b distance) }
    ensures hit_measured { HitMeasured best → HitMeasured result }
{
    if triangle::is_flat(determinant, a, b) {
        return best;
    }
    if distance != distance {
        return stopped(best, Refusal::Overflow);
    }
    let cross = a.cross(b);
    let square = cross.dot(cross);
    if vec3::tells_length(square) {
        return nearer(best, index, cross, square, distance);
    }
    if cross.is_normalizable() {
        return nearer(best, index, cross, square, distance);
    }
    stopped(best, Refusal::NoNormal)
}

// The same from what the first of its tests left.
fn next_within(best: Near, index: u32, ray: Ray, within: Within) -> Near
    ensures result_value { faced_indexed ray (says_near result) ≡ next_of (faced_indexed ray (says_near best)) index
        (within_answer ray within) }
    ensures hit_measured { HitMeasured best → HitMeasured result }
{
    let Within {
        offset,
        a,
        b,
        determinant,
        inverse,
        u,
    } = within;
    let Some(distance) = triangle::distance_within(ray, offset, a, b, inverse, u) else {
        return best;
    };
    next_at(best, index, determinant, a, b, distance)
}

// The same of a triangle; most miss at the first of their tests. It is compiled into its one user, the loop of the cast without a tree.
pub fn next_deferred(best: Near, index: u32, ray: Ray, corners: [Vec3; 3]) -> Near
    ensures result_value { faced_indexed ray (says_near result)
        ≡ next_of (faced_indexed ray (says_near best)) index (triangle_cast ray corners) }
    ensures hit_measured { HitMeasured best → HitMeasured result }
{
    match triangle::crossing(ray, corners) {
        Ok(Some(within)) => next_within(best, index, ray, within),
        Ok(None) => best,
        Err(refusal) => stopped(best, refusal),
    }
}

// The unit of a vector whose dot with itself is known.
fn unit_of(cross: Vec3, square: f64) -> Vec3
    requires { Measured cross square }
    ensures { result ≡ unit_of cross }
{
    if vec3::tells_length(square) {
        let length = square_root::root(square);
        return Vec3 {
            x: cross.x / length,
            y: cross.y / length,
            z: cross.z / length,
        };
    }
    cross.try_normalize().unwrap_or(cross)
}

// The normal of the hit that won.
pub fn with_normal(ray: Ray, best: Near) -> IndexedCast
    requires { HitMeasured best }
    ensures { says_indexed result ≡ faced_indexed ray (says_near best) }
{
    let Some(hit) = best? else {
        return Ok(None);
    };
    let flips = ray.direction.dot(hit.cross) > 0.0;
    let normal = unit_of(hit.cross, hit.square);
    Ok(Some(IndexedHit {
        normal: surface::facing_as(normal, ray.direction.dot(normal), flips),
        distance: hit.distance,
        index: hit.index,
    }))
}
