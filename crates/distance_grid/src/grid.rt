ghost use Rattle.std.specs.Prelude.{◌≡◌, ◌≤◌};
ghost use Rattle.distance_grid.specs.Grid.{SidesStand, nodes, side_admitted, sides_admitted, grid_admitted, last_node, last_corner};
ghost use Rattle.distance_grid.specs.Grid.{grid_box};

use geometry::aabb::Aabb;
use geometry::spacing;
use vectors::vec3::Vec3;

// How many nodes stand along each axis.
#[derive(Clone, Copy)]
pub struct Sides {
    pub x: u32,
    pub y: u32,
    pub z: u32,
}

// Nodes from the origin on, apart by the spacing on each axis. The values at the nodes go along as a slice, x fastest.
#[derive(Clone, Copy)]
pub struct Grid {
    pub sides: Sides,
    pub origin: Vec3,
    pub spacing: Vec3,
}

// The nodes of one axis: where the first stands, how far apart they are, and how many there are.
#[derive(Clone, Copy)]
pub struct Axis {
    pub origin: f64,
    pub spacing: f64,
    pub side: u32,
}

impl Grid {
    // A function for each axis: one over a number of the axis would choose at run time.
    pub fn along_x(self) -> Axis
        ensures { result ≡ record { origin = self.origin.x; spacing = self.spacing.x; side = self.sides.x } }
    {
        Axis {
            origin: self.origin.x,
            spacing: self.spacing.x,
            side: self.sides.x,
        }
    }

    pub fn along_y(self) -> Axis
        ensures { result ≡ record { origin = self.origin.y; spacing = self.spacing.y; side = self.sides.y } }
    {
        Axis {
            origin: self.origin.y,
            spacing: self.spacing.y,
            side: self.sides.y,
        }
    }

    pub fn along_z(self) -> Axis
        ensures { result ≡ record { origin = self.origin.z; spacing = self.spacing.z; side = self.sides.z } }
    {
        Axis {
            origin: self.origin.z,
            spacing: self.spacing.z,
            side: self.sides.z,
        }
    }
}

#[tactic(auto, unfolding(crate::specs::Grid::side_admitted))]
fn side_admitted(side: u32) -> bool
    ensures { result ≡ side_admitted side }
{
    2 <= side && side <= 256
}

// How many nodes there are.
#[tactic(auto, using(crate::proofs::GridLaws::plane_small, crate::proofs::GridLaws::nodes_small))]
fn node_count(sides: Sides) -> u64
    requires { SidesStand sides }
    ensures { result ≡ nodes sides }
{
    sides.z as u64 * sides.y as u64 * sides.x as u64
}

// The sides are tested before their product, which then fits.
#[tactic(auto, using(crate::proofs::GridLaws::side_stands), unfolding(crate::specs::Grid::sides_admitted))]
fn sides_admitted(sides: Sides, count: usize) -> bool
    ensures { result ≡ sides_admitted sides count }
{
    side_admitted(sides.x)
        && side_admitted(sides.y)
        && side_admitted(sides.z)
        && count as u64 == node_count(sides)
}

// Whether refusal 2 lets the grid pass with this many values.
#[tactic(auto, unfolding(crate::specs::Grid::grid_admitted))]
pub fn is_admitted(grid: Grid, count: usize) -> bool
    ensures { result ≡ grid_admitted grid count }
{
    sides_admitted(grid.sides, count)
        && spacing::spacing_admitted(grid.spacing.x)
        && spacing::spacing_admitted(grid.spacing.y)
        && spacing::spacing_admitted(grid.spacing.z)
        && grid.origin.is_finite()
}

// Where the last node of an axis stands.
#[tactic(auto, unfolding(crate::specs::Grid::last_node))]
pub fn last_node(axis: Axis) -> f64
    requires { 2 ≤ axis.side }
    ensures { result ≡ last_node axis.origin axis.spacing axis.side }
{
    axis.origin + axis.spacing * (axis.side - 1) as f64
}

// Where the last node of all stands.
#[tactic(auto, unfolding(crate::specs::Grid::last_corner))]
pub fn last_corner(grid: Grid) -> Vec3
    requires { SidesStand grid.sides }
    ensures { result ≡ last_corner grid }
{
    Vec3 {
        x: last_node(grid.along_x()),
        y: last_node(grid.along_y()),
        z: last_node(grid.along_z()),
    }
}

// The box from the origin to the last node, valid or not.
#[tactic(auto, unfolding(crate::specs::Grid::grid_box))]
pub fn local_bounds(grid: Grid) -> Aabb
    requires { SidesStand grid.sides }
    ensures { result ≡ grid_box grid }
{
    let last = last_corner(grid);
    Aabb {
        min: grid.origin.min(last),
        max: grid.origin.max(last),
    }
}
