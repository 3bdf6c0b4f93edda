ghost use Rattle.std.specs.Prelude.{◌≡◌, ◌&&◌, ◌*◌, leb};
ghost use Rattle.tree.specs.Mesh.{thirds, lengths_admitted};
ghost use Rattle.cabinet.specs.Parts.{stays_in, ranges_inside};

use crate::part::{Lengths, Part, Span};
use tree::mesh as triangle_mesh;

// Whether a range stays within an area; no sum is made that could pass the largest number.
#[tactic(auto, using(crate::proofs::PartSteps::stays_out, crate::proofs::PartSteps::stays_by_rest))]
fn stays_in(span: Span, long: usize) -> bool
    ensures { result ≡ stays_in span long }
{
    span.start <= long && span.length <= long - span.start
}

// Whether no range of a part leaves its area, by the areas' lengths.
#[tactic(auto, unfolding(crate::specs::Parts::ranges_inside))]
pub fn ranges_inside(p: Part, areas: Lengths) -> bool
    ensures { result ≡ ranges_inside p areas.vertices areas.triangles areas.node_boxes areas.triangle_boxes areas.node_words
        areas.order }
{
    stays_in(p.vertices, areas.vertices)
        && stays_in(p.triangles, areas.triangles)
        && stays_in(p.node_boxes, areas.node_boxes)
        && stays_in(p.triangle_boxes, areas.triangle_boxes)
        && stays_in(p.node_words, areas.node_words)
        && stays_in(p.order, areas.order)
}

// Whether the lengths of a mesh and its node count are admitted.
pub fn shape_admitted(vertices: usize, triangles: usize, nodes: usize) -> bool
    ensures { result ≡ (lengths_admitted vertices triangles && leb nodes (2 * thirds triangles)) }
{
    triangle_mesh::lengths_admitted(vertices, triangles) && nodes <= 2 * (triangles / 3)
}
