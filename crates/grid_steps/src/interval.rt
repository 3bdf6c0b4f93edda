ghost use Rattle.std.specs.Prelude.{◌≡◌};
ghost use Rattle.grid_steps.specs.Slab.{Within, says_interval, slab_from, kept, started, ray_aabb_interval};

use arithmetic::{basic, extremes};
use geometry::aabb::Aabb;
use geometry::ray::Ray;

// The distances of the ray that lie in the box.
#[derive(Clone, Copy)]
pub struct Interval {
    pub entry: f64,
    pub exit: f64,
}

// The interval, unless it is empty.
#[tactic(auto, unfolding(crate::specs::Slab::kept))]
fn kept(entry: f64, exit: f64) -> Option<Interval>
    ensures { says_interval result ≡ kept entry exit }
{
    if entry > exit {
        return None;
    }
    Some(Interval { entry, exit })
}

// The part of an interval that lies between the two faces of one axis.
#[tactic(auto, unfolding(crate::specs::Slab::slab_from, crate::specs::Slab::cut))]
fn slab_from(
    interval: Interval,
    origin: f64,
    direction: f64,
    low: f64,
    high: f64,
) -> Option<Interval>
    ensures { says_interval result ≡ slab_from interval.entry interval.exit origin direction low high }
{
    // 2^-1022
    if basic::abs(direction) <= 2.2250738585072014e-308 {
        if origin < low || origin > high {
            return None;
        }
        return Some(interval);
    }
    let first = (low - origin) / direction;
    let second = (high - origin) / direction;
    kept(
        extremes::maximum(interval.entry, extremes::minimum(first, second)),
        extremes::minimum(interval.exit, extremes::maximum(first, second)),
    )
}

// The interval where the walk starts: not behind the ray's origin nor past its maximum.
#[tactic(auto, unfolding(crate::specs::Slab::started))]
fn started(interval: Interval, max_distance: f64) -> Option<Interval>
    ensures { says_interval result ≡ started (Within interval.entry interval.exit) max_distance }
{
    if interval.exit < 0.0 || interval.entry > max_distance {
        return None;
    }
    Some(Interval {
        entry: extremes::maximum(interval.entry, 0.0),
        exit: interval.exit,
    })
}

// Kay and Kajiya's slabs: the ray's distances up to its maximum, cut by each axis in turn.
#[tactic(auto, unfolding(crate::specs::Slab::ray_aabb_interval, crate::specs::Slab::slab, crate::specs::Slab::started))]
pub fn ray_aabb_interval(ray: Ray, bounds: Aabb) -> Option<Interval>
    ensures { says_interval result ≡ ray_aabb_interval ray bounds }
{
    let whole = Interval {
        entry: ray.near,
        exit: ray.max_distance,
    };
    let first = slab_from(
        whole,
        ray.origin.x,
        ray.direction.x,
        bounds.min.x,
        bounds.max.x,
    )?;
    let second = slab_from(
        first,
        ray.origin.y,
        ray.direction.y,
        bounds.min.y,
        bounds.max.y,
    )?;
    let third = slab_from(
        second,
        ray.origin.z,
        ray.direction.z,
        bounds.min.z,
        bounds.max.z,
    )?;
    started(third, ray.max_distance)
}
