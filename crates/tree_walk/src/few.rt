ghost use Rattle.std.specs.Prelude.{◌≡◌, ◌+◌, ◌-◌, ◌*◌, ◌≤◌, length, take};
ghost use Rattle.tree_walk.specs.Opening.{as_number};
ghost use Rattle.geometry.specs.Box.{touches};
ghost use Rattle.lists.specs.Lists.{range};
ghost use Rattle.tree.specs.Layout.{first_at, second_at};
ghost use Rattle.tree_walk.specs.Walk.{walking, take_places, at_leaf};
ghost use Rattle.tree_walk.specs.Areas.{Room, Placed};

use crate::step;
use geometry::aabb::Aabb;
use tree::layout;

// 1 where two boxes touch, else 0, told without a jump.
fn touch_number(near: Aabb, bounds: Aabb) -> usize
    ensures { result ≡ as_number (touches near bounds) }
{
    let low = (near.min.x <= bounds.max.x) as usize * (near.min.y <= bounds.max.y) as usize;
    let high = (bounds.min.y <= near.max.y) as usize * (bounds.min.z <= near.max.z) as usize;
    let rest = (near.min.z <= bounds.max.z) as usize * (bounds.min.x <= near.max.x) as usize;
    low * high * rest
}

// At most four places of the order: each triangle is written behind those listed, and counted where its box touches, without a jump. What
// stands behind the last one listed is then put back.
fn take_few(
    bounds: Aabb,
    count: usize,
    triangle_boxes: &[f64],
    order: &[u32],
    start: usize,
    end: usize,
    list: &mut [u32],
    found: usize,
) -> Option<usize>
    requires { (start ≤ end) × ((end ≤ count) × ((end ≤ start + 4) × ((found + 5 ≤ count)
        × Room count order.now triangle_boxes.now list.old found))) }
    ensures { Placed (λ t stack. take_places t count bounds (walking stack (take found list.old))
        (range start (end - start))) count order.now triangle_boxes.now list.old found result
        list.new }
{
    let before = [
        list[found],
        list[found + 1],
        list[found + 2],
        list[found + 3],
        list[found + 4],
    ];
    let mut listed = found;
    for place in start..end {
        let triangle = order[place];
        let index = triangle as usize;
        if index >= count {
            return None;
        }
        list[listed] = triangle;
        listed += touch_number(layout::box_at(triangle_boxes, index), bounds);
    }
    list[listed] = before[listed - found];
    Some(listed)
}

// A leaf as `step::at_leaf` takes it: the few triangles of a built tree's leaf without a jump for each. A mesh of some twelve triangles is
// faster with the jumps.
pub fn at_leaf(
    bounds: Aabb,
    count: usize,
    triangle_boxes: &[f64],
    node_words: &[u32],
    order: &[u32],
    node: usize,
    list: &mut [u32],
    found: usize,
) -> Option<usize>
    requires { (3 * node + 3 ≤ length node_words.now) × Room count order.now triangle_boxes.now list.old found }
    ensures { Placed (λ t stack. at_leaf t count bounds (first_at node_words.now node)
        (second_at node_words.now node) stack (take found list.old)) count order.now
        triangle_boxes.now list.old found result list.new }
{
    let start = layout::word_at(node_words, 3 * node + 1);
    let size = layout::word_at(node_words, 3 * node + 2);
    if start + size > count {
        return None;
    }
    if size <= 4 {
        if found + 16 <= count {
            return take_few(
                bounds,
                count,
                triangle_boxes,
                order,
                start,
                start + size,
                list,
                found,
            );
        }
    }
    step::take_places(
        bounds,
        count,
        triangle_boxes,
        order,
        start,
        start + size,
        list,
        found,
    )
}
