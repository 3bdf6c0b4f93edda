ghost use Rattle.std.specs.Prelude.{◌≡◌};
ghost use Rattle.wide_integers.specs.Sizes.{Sized};
ghost use Rattle.wide_integers.specs.Determinant.{determinant};
ghost use Rattle.wide_integers.specs.Value.{value};
ghost use Rattle.exact_triangle.specs.Sizes.{Near, Crossed};
ghost use Rattle.exact_triangle.specs.Normal.{cross_of, dot_of, normal_of};

use crate::seen;
use exact_depth::projection::Point;
use vectors::vec3::Vec3;
use wide_integers::number;
use wide_integers::number::Wide;

// a d - b c.
fn determinant(a: i64, b: i64, c: i64, d: i64) -> i64
    requires { (Sized 536870912 a × Sized 536870912 b) × (Sized 536870912 c × Sized 536870912 d) }
    ensures { (result ≡ determinant a b c d) × Sized 576460752303423488 result }
{
    a * d - b * c
}

// The cross of the edges from the first corner.
pub fn cross_of(a: Point, b: Point, c: Point) -> Point
    requires { Near a × (Near b × Near c) }
    ensures { (result ≡ cross_of a b c) × Crossed result }
{
    let e = seen::from(a, b);
    let f = seen::from(a, c);
    Point {
        x: determinant(e.y, e.z, f.y, f.z),
        y: determinant(e.z, e.x, f.z, f.x),
        z: determinant(e.x, e.y, f.x, f.y),
    }
}

// n · p, of any two.
pub fn dot(n: Point, p: Point) -> Wide
    ensures { value result ≡ dot_of n p }
{
    number::sum(
        number::sum(number::product(n.x, p.x), number::product(n.y, p.y)),
        number::product(n.z, p.z),
    )
}

// The unit normal of a cross of edges: of a triangle with area it is told.
pub fn unit_of(n: Point) -> Option<Vec3>
    ensures { result ≡ normal_of n }
{
    let v = Vec3 {
        x: std::num::nearest_i64_to_f64(n.x),
        y: std::num::nearest_i64_to_f64(n.y),
        z: std::num::nearest_i64_to_f64(n.z),
    };
    v.normalize()
}
