ghost use Rattle.std.specs.Prelude.{◌≡◌};
ghost use Rattle.casts.specs.Answer.{says};
ghost use Rattle.nearest_hit.specs.Nearest.{no_hit, hit_at, says_indexed, next_of, gives_way, without_index};
ghost use Rattle.triangle_cast.specs.Crossing.{within_answer, settled_answer};
ghost use Rattle.triangle_cast.specs.Triangle.{triangle_cast};

use casts::answer::{Cast, Hit, Refusal};
use geometry::ray::Ray;
use triangle_cast::parts::Within;
use triangle_cast::triangle;
use vectors::vec3::Vec3;

// A hit at one of many triangles, with the triangle's index.
#[derive(Clone, Copy)]
pub struct IndexedHit {
    pub normal: Vec3,
    pub distance: f64,
    pub index: u32,
}

// The answer of a cast at many triangles.
pub type IndexedCast = Result<Option<IndexedHit>, Refusal>;

// A triangle's answer where nothing was found before, with its index.
#[tactic(auto, unfolding(crate::specs::Nearest::next_of))]
fn indexed(index: u32, cast: Cast) -> IndexedCast
    ensures { says_indexed result ≡ next_of no_hit index (says cast) }
{
    let Some(hit) = cast? else {
        return Ok(None);
    };
    Ok(Some(IndexedHit {
        normal: hit.normal,
        distance: hit.distance,
        index,
    }))
}

// One more triangle's answer after a hit, which it replaces only where it is strictly nearer.
#[tactic(auto, unfolding(crate::specs::Nearest::next_of))]
fn nearer(best: IndexedHit, index: u32, cast: Cast) -> IndexedCast
    ensures { says_indexed result ≡ next_of (hit_at best.normal best.distance best.index) index (says cast) }
{
    let Some(hit) = cast? else {
        return Ok(Some(best));
    };
    if hit.distance < best.distance {
        return Ok(Some(IndexedHit {
            normal: hit.normal,
            distance: hit.distance,
            index,
        }));
    }
    Ok(Some(best))
}

// What was found so far and one more triangle's answer; the first refusal stays. It is compiled into each of its users.
#[inline(always)]
#[tactic(auto, unfolding(crate::specs::Nearest::next_of))]
pub fn next(best: IndexedCast, index: u32, cast: Cast) -> IndexedCast
    ensures { says_indexed result ≡ next_of (says_indexed best) index (says cast) }
{
    match best? {
        Some(hit) => nearer(hit, index, cast),
        None => indexed(index, cast),
    }
}

// Whether a hit at a distance would take the place of what was found so far.
#[tactic(auto, unfolding(crate::specs::Nearest::gives_way))]
pub fn gives_way(best: IndexedCast, distance: f64) -> bool
    ensures { result ≡ gives_way (says_indexed best) distance }
{
    match best {
        Ok(Some(hit)) => distance < hit.distance,
        Ok(None) => true,
        Err(_) => false,
    }
}

// What was found so far and one more triangle that is reached at a distance, whose normal is computed only where its hit takes the place.
fn next_settled(
    best: IndexedCast,
    index: u32,
    ray: Ray,
    a: Vec3,
    b: Vec3,
    determinant: f64,
    distance: f64,
) -> IndexedCast
    ensures { says_indexed result ≡ next_of (says_indexed best) index (settled_answer ray determinant a b distance) }
{
    match triangle::settled(determinant, a.x, a.y, a.z, b.x, b.y, b.z, distance) {
        Ok(Some(reached)) => {
            if gives_way(best, reached) {
                return next(best, index, triangle::triangle_normal(ray, a, b, reached));
            }
            best
        }
        Ok(None) => best,
        Err(refusal) => next(best, index, Err(refusal)),
    }
}

// What was found so far and one more triangle, from what the first of its tests left.
fn next_within(best: IndexedCast, index: u32, ray: Ray, within: Within) -> IndexedCast
    ensures { says_indexed result ≡ next_of (says_indexed best) index (within_answer ray within) }
{
    let Within {
        offset,
        a,
        b,
        determinant,
        inverse,
        u,
    } = within;
    let Some(distance) = triangle::distance_within(ray, offset, a, b, inverse, u) else {
        return best;
    };
    next_settled(best, index, ray, a, b, determinant, distance)
}

// What was found so far and one more triangle; most miss at the first of their tests. It is compiled into its one user, the height grid's
// loop.
pub fn next_triangle(best: IndexedCast, index: u32, ray: Ray, corners: [Vec3; 3]) -> IndexedCast
    ensures { says_indexed result ≡ next_of (says_indexed best) index (triangle_cast ray corners) }
{
    match triangle::crossing(ray, corners) {
        Ok(Some(within)) => next_within(best, index, ray, within),
        Ok(None) => best,
        Err(refusal) => next(best, index, Err(refusal)),
    }
}

// The answer without the index.
#[tactic(auto, unfolding(crate::specs::Nearest::without_index))]
pub fn without_index(best: IndexedCast) -> Cast
    ensures { says result ≡ without_index (says_indexed best) }
{
    let Some(hit) = best? else {
        return Ok(None);
    };
    Ok(Some(Hit {
        normal: hit.normal,
        distance: hit.distance,
    }))
}
