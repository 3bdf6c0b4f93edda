ghost use Rattle.std.specs.Prelude.{◌≡◌, pos, ◌-ℤ◌, ◌*ℤ◌, ℕ, ◌*◌, ◌^◌};
ghost use Rattle.wide_integers.specs.Sizes.{Sized};
ghost use Rattle.wide_integers.specs.Value.{value};
ghost use Rattle.exact_triangle.specs.Line.{parts, Line};
ghost use Rattle.exact_triangle.specs.Shear.{from};
ghost use Rattle.exact_triangle.specs.Sizes.{Near, DirectionSized};
ghost use Rattle.drill.specs.Decision.{from_axis};
ghost use Rattle.drill.specs.Code.{SideOf, About, Drills, DrillSized, from_axis_of, CornerSized};

use crate::forms;
use exact_depth::projection::Point;
use exact_triangle::normal;
use wide_integers::number;
use wide_integers::number::Wide;

// A drill: the origin and the direction of its axis, the square of the direction's length, near and far times that, near and far, the
// radius' square times that, the radius' square, and a number that is no less than the radius times the direction's length.
#[derive(Clone, Copy)]
pub struct Drill {
    pub origin: Point,
    pub direction: Point,
    pub length: Wide,
    pub near: Wide,
    pub far: Wide,
    pub start: i64,
    pub end: i64,
    pub reach: Wide,
    pub area: i64,
    pub side: i64,
}

// A corner from the axis: where it is from the origin; its cross and its dot with the direction; how far it is above near and
// below far.
#[derive(Clone, Copy)]
pub struct Corner {
    pub at: Point,
    pub moment: Point,
    pub height: i64,
    pub low: Wide,
    pub high: Wide,
}

// How far a height is above near.
fn above(height: i64, near: Wide) -> Wide
    requires { Sized (3 * 2 ^ 60) height × Sized (3 * 2 ^ 92) (value near) }
    ensures { (value result ≡ pos parts *ℤ height -ℤ value near) × Sized (2 ^ 94) (value result) }
{
    number::difference(number::product(1073741824, height), near)
}

// How far a height is below far.
fn under(height: i64, far: Wide) -> Wide
    requires { Sized (3 * 2 ^ 60) height × Sized (3 * 2 ^ 92) (value far) }
    ensures { (value result ≡ value far -ℤ pos parts *ℤ height) × Sized (2 ^ 94) (value result) }
{
    number::difference(far, number::product(1073741824, height))
}

// A corner from the axis.
pub fn corner_at(drill: Drill, p: Point) -> Corner
    requires { DrillSized drill × Near p }
    ensures { CornerSized result × ((l : Line) (ρ : ℕ) → Drills drill l ρ → from_axis_of result ≡ from_axis l (from l.origin p)) }
{
    let at = forms::from(drill.origin, p);
    let height = forms::height(at, drill.direction);
    Corner {
        at,
        moment: forms::cross(at, drill.direction),
        height,
        low: above(height, drill.near),
        high: under(height, drill.far),
    }
}

// A number that is no less than the radius times the length: 2^30 + 2 is no less than that of a unit direction, 2^32 than any.
fn side_of(length: Wide, radius: i64) -> i64
    requires { Sized (2 ^ 64) (value length) × Sized (2 ^ 22) radius }
    ensures { Sized (2 ^ 54) result × ((ρ : ℕ) → radius ≡ pos ρ → SideOf (pos (ρ * ρ) *ℤ value length) result) }
{
    if number::at_most(length, number::of_i64(1152921508901814276)) {
        return radius * 1073741826;
    }
    radius * 4294967296
}

// The drill about a segment.
pub fn drill_of(origin: Point, direction: Point, near: i64, far: i64, radius: i64) -> Drill
    requires { (Near origin × DirectionSized direction) × (Sized (2 ^ 30) near × (Sized (2 ^ 30) far × Sized (2 ^ 22) radius)) }
    ensures { DrillSized result × ((l : Line) (ρ : ℕ) → About l ρ origin direction near far radius → Drills result l ρ) }
{
    let length = normal::dot(direction, direction);
    let from = number::times(length, near);
    let to = number::times(length, far);
    let area = radius * radius;
    let reach = number::times(length, area);
    Drill {
        origin,
        direction,
        length,
        near: from,
        far: to,
        start: near,
        end: far,
        reach,
        area,
        side: side_of(length, radius),
    }
}
