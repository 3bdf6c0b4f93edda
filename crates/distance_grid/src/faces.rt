ghost use Rattle.std.specs.Prelude.{◌≡◌, ◌+◌, ◌<◌};
ghost use Rattle.distance_grid.specs.Faces.{value_at, face_at, low_x, high_x, low_y, high_y};

use crate::field::DistanceGrid;

// The four values at the corners of a cell's face: by the first axis, then by the second.
#[derive(Clone, Copy)]
pub struct Face {
    pub a00: f64,
    pub a10: f64,
    pub a01: f64,
    pub a11: f64,
}

// The value at a node.
#[tactic(auto, using(crate::proofs::CellLaws::node_placed), unfolding(crate::specs::Faces::value_at))]
fn value_at(field: &DistanceGrid, x: u32, y: u32, z: u32) -> f64
    requires { (x < field.now.grid.sides.x) × ((y < field.now.grid.sides.y) × (z < field.now.grid.sides.z)) }
    ensures { result ≡ value_at field.now.grid field.now.values.now x y z }
{
    let sides = field.grid.sides;
    let index = (z as usize * sides.y as usize + y as usize) * sides.x as usize + x as usize;
    field.values[index]
}

// The four values of a cell at one z.
#[tactic(auto, unfolding(crate::specs::Faces::face_at))]
pub fn face_at(field: &DistanceGrid, x: u32, y: u32, z: u32) -> Face
    requires { (x + 1 < field.now.grid.sides.x) × ((y + 1 < field.now.grid.sides.y) × (z < field.now.grid.sides.z)) }
    ensures { result ≡ face_at field.now.grid field.now.values.now x y z }
{
    Face {
        a00: value_at(field, x, y, z),
        a10: value_at(field, x + 1, y, z),
        a01: value_at(field, x, y + 1, z),
        a11: value_at(field, x + 1, y + 1, z),
    }
}

// Each of the four names other fields: one function over the fields would be no plainer.
// The face toward lower x, of the faces toward lower and higher z.
pub fn low_x(low: Face, high: Face) -> Face
    ensures { result ≡ low_x low high }
{
    Face {
        a00: low.a00,
        a10: low.a01,
        a01: high.a00,
        a11: high.a01,
    }
}

// The face toward higher x.
pub fn high_x(low: Face, high: Face) -> Face
    ensures { result ≡ high_x low high }
{
    Face {
        a00: low.a10,
        a10: low.a11,
        a01: high.a10,
        a11: high.a11,
    }
}

// The face toward lower y.
pub fn low_y(low: Face, high: Face) -> Face
    ensures { result ≡ low_y low high }
{
    Face {
        a00: low.a00,
        a10: low.a10,
        a01: high.a00,
        a11: high.a10,
    }
}

// The face toward higher y.
pub fn high_y(low: Face, high: Face) -> Face
    ensures { result ≡ high_y low high }
{
    Face {
        a00: low.a01,
        a10: low.a11,
        a01: high.a01,
        a11: high.a11,
    }
}
