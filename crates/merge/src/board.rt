// A board: a mesh and its tree, in areas that are laid out as in the crate tree.
#[derive(Clone, Copy)]
pub struct Board<'a> {
    pub vertices: &'a [f64],
    pub triangles: &'a [u32],
    pub nodes: usize,
    pub node_boxes: &'a [f64],
    pub triangle_boxes: &'a [f64],
    pub node_words: &'a [u32],
    pub order: &'a [u32],
}
