ghost use Rattle.std.specs.Prelude.{◌≡◌, true, false, ◌+◌, ◌*◌, ◌<◌, ◌≤◌, length, IfSome};
ghost use Rattle.geometry.specs.Box.{corners_box, touches};
ghost use Rattle.tree.specs.Mesh.{mesh, thirds, corners_inside, corners_of};
ghost use Rattle.mesh_plain.specs.PlainCast.{triangles_fit};
ghost use Rattle.mesh_plain.specs.Boxes.{AllFinite, BoxesHold, Coded, one_at_most, one_at_least, side_touches, side_code, code_of};

use arithmetic::basic;
use geometry::aabb::Aabb;
use tree::{layout, mesh as triangle_mesh};
use vectors::vec3::Vec3;

// Whether each vertex is finite: an infinity or NaN stays in a sum. Only a yes is promised to be right, since finite numbers may have a
// sum that is not: after a no each box is looked at.
pub fn all_finite(vertices: &[f64]) -> bool
    ensures { result ≡ true → AllFinite vertices.now }
{
    let limit = vertices.len() / 3;
    let mut sum = Vec3 {
        x: 0.0,
        y: 0.0,
        z: 0.0,
    };
    for i in 0..limit {
        sum = sum.add(layout::vector_at(vertices, 3 * i));
    }
    basic::is_finite(sum.x + sum.y + sum.z)
}

// Whether each triangle has a valid box.
pub fn all_fit(vertices: &[f64], triangles: &[u32]) -> bool
    requires { length triangles.now ≤ 196608 }
    ensures { result ≡ triangles_fit (mesh vertices.now triangles.now) }
{
    let limit = vertices.len() / 3;
    let count = triangles.len() / 3;
    for i in 0..count {
        if !triangle_mesh::corners_inside(limit, triangles, i) {
            return false;
        }
        let around = triangle_mesh::triangle_box(vertices, triangles, i);
        if !around.is_valid() {
            return false;
        }
    }
    true
}

// Whether each triangle whose indices are below the vertex count has a valid box: of finite corners it has.
pub fn boxes_hold(vertices: &[f64], triangles: &[u32]) -> bool
    requires { length triangles.now ≤ 196608 }
    ensures boxes_hold { result ≡ true → BoxesHold (mesh vertices.now triangles.now) }
    ensures triangles_value { result ≡ false → triangles_fit (mesh vertices.now triangles.now) ≡ false }
{
    if all_finite(vertices) {
        return true;
    }
    all_fit(vertices, triangles)
}

// Whether one of three numbers is at most a limit; NaN is not.
// Its fellow below asks the other comparison: a function over the comparison would be no plainer than three of them.
fn one_at_most(a: f64, b: f64, c: f64, limit: f64) -> bool
    ensures { result ≡ one_at_most a b c limit }
{
    if a <= limit {
        return true;
    }
    if b <= limit {
        return true;
    }
    c <= limit
}

// Whether one of three numbers is at least a limit; NaN is not.
fn one_at_least(a: f64, b: f64, c: f64, limit: f64) -> bool
    ensures { result ≡ one_at_least a b c limit }
{
    if limit <= a {
        return true;
    }
    if limit <= b {
        return true;
    }
    limit <= c
}

// Whether the box of three numbers on one axis touches another: by comparisons alone, without the box.
fn side_touches(a: f64, b: f64, c: f64, from: f64, to: f64) -> bool
    ensures { result ≡ side_touches a b c from to }
{
    if !one_at_most(a, b, c, to) {
        return false;
    }
    one_at_least(a, b, c, from)
}

// Whether the box of three corners touches another. It is compiled into each of its users, since it runs once a triangle.
#[inline(always)]
pub fn corners_touch(corners: [Vec3; 3], bounds: Aabb) -> bool
    ensures { result ≡ touches (corners_box corners) bounds }
{
    let first = corners[0];
    let second = corners[1];
    let third = corners[2];
    if !side_touches(first.x, second.x, third.x, bounds.min.x, bounds.max.x) {
        return false;
    }
    if !side_touches(first.y, second.y, third.y, bounds.min.y, bounds.max.y) {
        return false;
    }
    side_touches(first.z, second.z, third.z, bounds.min.z, bounds.max.z)
}

// On which sides of an interval a number lies: 1 before it, 2 behind it, and both for NaN.
fn side_code(x: f64, from: f64, to: f64) -> u64
    ensures value { result ≡ side_code x from to }
    ensures upper_bound { result < 4 }
{
    !(x <= to) as u64 * 2 + !(from <= x) as u64
}

// On which sides of a box a vertex lies: two binary digits an axis.
fn code_of(bounds: Aabb, vertex: Vec3) -> u64
    ensures { result ≡ code_of bounds vertex }
{
    let x = side_code(vertex.x, bounds.min.x, bounds.max.x);
    let y = side_code(vertex.y, bounds.min.y, bounds.max.y);
    let z = side_code(vertex.z, bounds.min.z, bounds.max.z);
    (z * 4 + y) * 4 + x
}

// On which sides of a box each vertex lies, where there is a place for each; after a no the places may hold anything.
pub fn put_codes(codes: &mut [u64], bounds: Aabb, vertices: &[f64]) -> bool
    ensures { result ≡ true → Coded bounds vertices.now codes.new }
{
    let limit = vertices.len() / 3;
    if limit > codes.len() {
        return false;
    }
    for i in 0..limit {
        codes[i] = code_of(bounds, layout::vector_at(vertices, 3 * i));
    }
    true
}

// The codes in these places, where there is a place for each vertex.
pub fn coded<'a>(codes: &'a mut [u64], bounds: Aabb, vertices: &[f64]) -> Option<&'a [u64]>
    ensures { IfSome result (λ told. Coded bounds vertices.now told.now) }
{
    if put_codes(codes, bounds, vertices) {
        return Some(codes);
    }
    None
}

// Whether a triangle's box touches, by its vertices' codes: it does not where all three lie on one side.
pub fn codes_touch(
    codes: &[u64],
    bounds: Aabb,
    vertices: &[f64],
    triangles: &[u32],
    index: usize,
) -> bool
    requires { ((3 * index + 3 ≤ length triangles.now)
        × (corners_inside (thirds (length vertices.now)) triangles.now index ≡ true)) × (Coded bounds vertices.now codes.now) }
    ensures { result ≡ touches (corners_box (corners_of vertices.now triangles.now index)) bounds }
{
    let first = codes[layout::word_at(triangles, 3 * index)];
    let second = codes[layout::word_at(triangles, 3 * index + 1)];
    let third = codes[layout::word_at(triangles, 3 * index + 2)];
    first & second & third == 0
}

// The same, by the codes where there are any, else by the corners. It is compiled into each of its users, so that the loop over the
// triangles is made once with codes and once without.
#[inline(always)]
pub fn triangle_touches(
    codes: Option<&[u64]>,
    bounds: Aabb,
    vertices: &[f64],
    triangles: &[u32],
    index: usize,
) -> bool
    requires { ((3 * index + 3 ≤ length triangles.now)
        × (corners_inside (thirds (length vertices.now)) triangles.now index ≡ true))
        × (IfSome codes (λ told. Coded bounds vertices.now told.now)) }
    ensures { result ≡ touches (corners_box (corners_of vertices.now triangles.now index)) bounds }
{
    match codes {
        Some(told) => codes_touch(told, bounds, vertices, triangles, index),
        None => corners_touch(
            triangle_mesh::corners_of(vertices, triangles, index),
            bounds,
        ),
    }
}
