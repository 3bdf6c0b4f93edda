ghost use Rattle.std.specs.Prelude.{◌≡◌, true, ◌*◌, ◌≤◌, length};
ghost use Rattle.tree_exact.specs.AtRoot.{MissesRoot};

use crate::boxes;
use geometry::aabb::Aabb;
use tree::layout;

// Whether the root's box is in range and apart from the segment's, reach: what a yes means is the clause.
pub fn misses_root(reach: Aabb, nodes: usize, node_boxes: &[f64]) -> bool
    requires { 6 * nodes ≤ length node_boxes.now }
    ensures { result ≡ true → MissesRoot reach nodes node_boxes.now }
{
    if nodes == 0 {
        return false;
    }
    let root = layout::box_at(node_boxes, 0);
    if root.touches(reach) {
        return false;
    }
    boxes::is_read(root)
}
