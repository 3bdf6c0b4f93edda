// A point of the grid.
#[derive(Clone, Copy)]
pub struct Point {
    pub x: i64,
    pub y: i64,
    pub z: i64,
}

// A corner as the line sees it: how far to the side, how far up, and how deep, from the ray's origin.
#[derive(Clone, Copy)]
pub struct Projected {
    pub across: i64,
    pub up: i64,
    pub depth: i64,
}

// The depth t / w, with w above 0.
#[derive(Clone, Copy)]
pub struct Fraction {
    pub t: i64,
    pub w: i64,
}
