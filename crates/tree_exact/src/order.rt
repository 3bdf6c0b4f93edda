ghost use Rattle.std.specs.Prelude.{◌≡◌, ◌*◌, ◌≤◌, length};
ghost use Rattle.exact_triangle.specs.Line.{Line};
ghost use Rattle.exact_triangle.specs.View.{main_as, Sees, ViewSized};
ghost use Rattle.tree_exact.specs.Order.{coordinate_on, comes_first, nearer_first, taken_first};

use crate::boxes;
use exact_triangle::view::{Axis, View};
use geometry::aabb::Aabb;
use tree::layout;
use vectors::vec3::Vec3;

// The coordinate on an axis.
fn coordinate_on(axis: Axis, v: Vec3) -> f64
    ensures { result ≡ coordinate_on (main_as axis) v }
{
    match axis {
        Axis::X => v.x,
        Axis::Y => v.y,
        Axis::Z => v.z,
    }
}

// Whether the line comes to a box before another, or at once.
fn comes_first(line: View, a: Aabb, b: Aabb) -> bool
    requires { ViewSized line }
    ensures { (l : Line) → Sees line l → result ≡ comes_first l a b }
{
    let axis = line.axis;
    let heading = line.heading;
    if heading.depth < 0 {
        return coordinate_on(axis, b.max) <= coordinate_on(axis, a.max);
    }
    coordinate_on(axis, a.min) <= coordinate_on(axis, b.min)
}

// Whether the left child is the nearer one.
fn nearer_first(line: View, nodes: usize, node_boxes: &[f64], left: usize, right: usize) -> bool
    requires { ViewSized line × (6 * nodes ≤ length node_boxes.now) }
    ensures { (l : Line) → Sees line l → result ≡ nearer_first l nodes node_boxes.now left right }
{
    if left >= nodes {
        return true;
    }
    if right >= nodes {
        return true;
    }
    comes_first(
        line,
        layout::box_at(node_boxes, left),
        layout::box_at(node_boxes, right),
    )
}

// Whether the left child is taken before the right one.
pub fn taken_first(line: View, nodes: usize, node_boxes: &[f64], left: usize, right: usize) -> bool
    requires { ViewSized line × (6 * nodes ≤ length node_boxes.now) }
    ensures { (l : Line) → Sees line l → result ≡ taken_first l nodes node_boxes.now left right }
{
    if boxes::is_short(line) {
        return true;
    }
    nearer_first(line, nodes, node_boxes, left, right)
}
