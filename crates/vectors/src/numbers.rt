// Document 01's EPS, 2^-52: how far the next float above 1 is from it.
pub const EPSILON: f64 = 2.220446049250313e-16;
