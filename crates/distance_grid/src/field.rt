ghost use Rattle.distance_grid.specs.Grid.{Stands};

use crate::grid::Grid;

// A distance grid: nodes, and the value at each, x fastest. The sides are admitted, and there are as many values as nodes.
#[derive(Clone, Copy)]
pub struct DistanceGrid<'a> {
    pub grid: Grid,
    pub values: &'a [f64],
    pub ghost stands: { Stands grid values.now },
}
