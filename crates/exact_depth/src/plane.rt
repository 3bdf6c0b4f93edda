// A corner in a plane that the line lies in: the line is u = 0.
#[derive(Clone, Copy)]
pub struct PlanePoint {
    pub u: i64,
    pub depth: i64,
}

// A side's own test of a depth t / w: level · w - fall · t is not below 0 on the triangle's side of it.
#[derive(Clone, Copy)]
pub struct Side {
    pub level: i64,
    pub fall: i64,
}
