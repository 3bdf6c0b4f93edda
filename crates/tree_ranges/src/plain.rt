ghost use Rattle.std.specs.Prelude.{◌≡◌};
ghost use Rattle.tree_ranges.specs.Plain.{plain, plain_vec, plain_box, plain_range};

use crate::ranges;
use geometry::aabb::Aabb;
use vectors::vec3::Vec3;

// The pattern of -0.
const MINUS_ZERO: u64 = 0x8000_0000_0000_0000;

// Whether a value is a number and not -0: a comparison or two tell, unless it is a zero or a NaN.
fn is_plain(x: f64) -> bool
    ensures { result ≡ plain x }
{
    if x < 0.0 {
        return true;
    }
    if 0.0 < x {
        return true;
    }
    if x != x {
        return false;
    }
    f64::to_bits(x) != MINUS_ZERO
}

// Whether the three numbers of a vector are plain.
fn vector_is_plain(v: Vec3) -> bool
    ensures { result ≡ plain_vec v }
{
    if !is_plain(v.x) {
        return false;
    }
    if !is_plain(v.y) {
        return false;
    }
    is_plain(v.z)
}

// Whether a box's corners and its centre are plain.
fn box_is_plain(b: Aabb) -> bool
    ensures { result ≡ plain_box b }
{
    if !vector_is_plain(b.min) {
        return false;
    }
    if !vector_is_plain(b.max) {
        return false;
    }
    vector_is_plain(b.center())
}

// Whether the boxes of all triangles of a range are plain.
pub fn all_plain(boxes: &[f64], order: &[u32]) -> bool
    ensures { result ≡ plain_range boxes.now order.now }
{
    order
        .iter()
        .all(|triangle| box_is_plain(ranges::box_of(boxes, *triangle)))
}
