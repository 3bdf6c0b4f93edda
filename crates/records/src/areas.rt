// The areas in which a record is answered. They may hold anything, before and afterwards.

// For a mesh's tree and the walk through it: room for 677 triangles, which is as many as a well-formed record has at most.
#[derive(Drop)]
pub struct TreeAreas {
    pub node_boxes: [f64; 8124],
    pub triangle_boxes: [f64; 4062],
    pub node_words: [u32; 4062],
    pub order: [u32; 677],
    pub list: [u32; 677],
    pub stack: [u32; 1355],
}

// For a record's floats and its indices, and for its tree.
#[derive(Drop)]
pub struct WorkAreas {
    pub numbers: [f64; 1024],
    pub triangles: [u32; 2031],
    pub tree: TreeAreas,
}
