ghost use Rattle.std.specs.Prelude.{◌≡◌, true, ◌*◌, ◌≤◌, length};
ghost use Rattle.vectors.specs.Vector.{finite_vec};
ghost use Rattle.tree.specs.Mesh.{thirds};
ghost use Rattle.tree_walk.specs.Areas.{WalkRoom};
ghost use Rattle.cabinet.specs.Parts.{lent_mesh, lent_tree};
ghost use Rattle.cabinet.specs.Root.{leaves_at_root};
ghost use Rattle.cabinet.specs.PartCast.{cast_within, cast_moved};
ghost use Rattle.cabinet.specs.Steps.{says_cost};

use crate::part::{Areas, CastCost};
use casts::answer::Refusal;
use geometry::aabb::Aabb;
use geometry::ray::Ray;
use mesh::candidates;
use tree::layout;
use tree_walk::within;
use tree_walk::within::Limited;
use vectors::vec3::Vec3;

// Whether a box leaves the tree at its first node: there is one, the limit lets it be taken, and its box does not touch.
#[tactic(auto, unfolding(crate::specs::Root::leaves_at_root))]
fn leaves_at_root(bounds: Aabb, nodes: usize, node_boxes: &[f64], limit: usize) -> bool
    requires { 6 * nodes ≤ length node_boxes.now }
    ensures { result ≡ leaves_at_root limit nodes node_boxes.now bounds }
{
    limit != 0 && nodes != 0 && !layout::box_at(node_boxes, 0).touches(bounds)
}

// The cast at a mesh whose refusals 2 and 3 let it pass, for a ray whose origin is finite; the list and the stack may hold anything
// afterwards. A box that leaves the tree at its first node, as at most parts of a cabinet, is answered before the walk, which stays out of
// line.
fn cast_within(
    ray: Ray,
    nodes: usize,
    areas: Areas<'_>,
    list: &mut [u32],
    stack: &mut [u32],
    limit: usize,
) -> CastCost
    requires { (finite_vec ray.origin ≡ true)
        × (WalkRoom (thirds (length areas.triangles.now)) (lent_tree nodes areas) list.old stack.old) }
    ensures { says_cost result ≡ cast_within limit ray (lent_mesh areas.entry) (lent_tree nodes areas.entry) }
{
    let end = ray.segment_end();
    if !end.is_finite() {
        return CastCost {
            spent: 0,
            cast: Err(Refusal::Overflow),
        };
    }
    let bounds = ray.segment_box(end);
    if leaves_at_root(bounds, nodes, areas.node_boxes, limit) {
        return CastCost {
            spent: 1,
            cast: Ok(None),
        };
    }
    let count = areas.triangles.len() / 3;
    let walked = within::gather_within(
        bounds,
        count,
        nodes,
        areas.node_boxes,
        areas.triangle_boxes,
        areas.node_words,
        areas.order,
        list,
        stack,
        limit,
    );
    match walked {
        Limited::Count { found, spent } => CastCost {
            spent,
            cast: candidates::nearest_of(ray, areas.vertices, areas.triangles, list, found),
        },
        Limited::Broken(spent) => CastCost {
            spent,
            cast: Err(Refusal::OutOfBounds),
        },
        Limited::UsedUp(spent) => CastCost {
            spent,
            cast: Err(Refusal::LimitReached),
        },
    }
}

// The same with the ray moved to the part's origin.
pub fn cast_moved(
    ray: Ray,
    origin: Vec3,
    nodes: usize,
    areas: Areas<'_>,
    list: &mut [u32],
    stack: &mut [u32],
    limit: usize,
) -> CastCost
    requires { WalkRoom (thirds (length areas.triangles.now)) (lent_tree nodes areas) list.old stack.old }
    ensures { says_cost result ≡ cast_moved limit ray origin (lent_mesh areas.entry) (lent_tree nodes areas.entry) }
{
    let at = ray.origin.sub(origin);
    if !at.is_finite() {
        return CastCost {
            spent: 0,
            cast: Err(Refusal::Overflow),
        };
    }
    let moved = Ray { origin: at, ..ray };
    cast_within(moved, nodes, areas, list, stack, limit)
}
