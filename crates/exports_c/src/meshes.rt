ghost use Rattle.tree.specs.Mesh.{mesh};
ghost use Rattle.tree.specs.Layout.{areas, tree_of};
ghost use Rattle.results.specs.Results.{ray_from, ray_of, box_of};
ghost use Rattle.exports.specs.Calls.{MeshCall, BuildCall, QueryCall, CheckCall, built_returned};

// The mesh cast. The list and the stack are work areas: unchanged until the result slices and refusals 1 to 4 have let the call pass, and
// then they may hold anything.
// Demand 3 holds of what is read back from the number and the slices: the third clause, `DemandRead` (specs/Reading.antt).
#[unsafe(no_mangle)]
pub extern "C" fn probe_ray_mesh(
    origin_x: f64,
    origin_y: f64,
    origin_z: f64,
    direction_x: f64,
    direction_y: f64,
    direction_z: f64,
    max_distance: f64,
    vertices: &[f64],
    triangles: &[u32],
    pose: &[f64],
    nodes: usize,
    node_boxes: &[f64],
    triangle_boxes: &[f64],
    node_words: &[u32],
    order: &[u32],
    list: &mut [u32],
    stack: &mut [u32],
    hit: &mut [f64],
    index: &mut [u32],
) -> u32
    ensures { MeshCall (ray_of origin_x origin_y origin_z direction_x direction_y direction_z max_distance)
        (mesh vertices.now triangles.now) pose.now
        (tree_of nodes node_boxes.now triangle_boxes.now node_words.now order.now)
        list.old list.new stack.old stack.new hit.old index.old
        (record { number = result; hit = hit.new; index = index.new }) }
{
    exports::meshes::probe_ray_mesh(
        origin_x,
        origin_y,
        origin_z,
        direction_x,
        direction_y,
        direction_z,
        max_distance,
        vertices,
        triangles,
        pose,
        nodes,
        node_boxes,
        triangle_boxes,
        node_words,
        order,
        list,
        stack,
        hit,
        index,
    )
}

// The same of a ray with a near distance.
#[unsafe(no_mangle)]
pub extern "C" fn probe_ray_mesh_near(
    origin_x: f64,
    origin_y: f64,
    origin_z: f64,
    direction_x: f64,
    direction_y: f64,
    direction_z: f64,
    max_distance: f64,
    near_distance: f64,
    vertices: &[f64],
    triangles: &[u32],
    pose: &[f64],
    nodes: usize,
    node_boxes: &[f64],
    triangle_boxes: &[f64],
    node_words: &[u32],
    order: &[u32],
    list: &mut [u32],
    stack: &mut [u32],
    hit: &mut [f64],
    index: &mut [u32],
) -> u32
    ensures { MeshCall (ray_from origin_x origin_y origin_z direction_x direction_y direction_z max_distance
        near_distance)
        (mesh vertices.now triangles.now) pose.now
        (tree_of nodes node_boxes.now triangle_boxes.now node_words.now order.now)
        list.old list.new stack.old stack.new hit.old index.old
        (record { number = result; hit = hit.new; index = index.new }) }
{
    exports::meshes::probe_ray_mesh_near(
        origin_x,
        origin_y,
        origin_z,
        direction_x,
        direction_y,
        direction_z,
        max_distance,
        near_distance,
        vertices,
        triangles,
        pose,
        nodes,
        node_boxes,
        triangle_boxes,
        node_words,
        order,
        list,
        stack,
        hit,
        index,
    )
}

// Builds a mesh's tree into the result areas and writes its node count. The work area is unchanged after refusals 2 and 3; past their
// tests nothing is promised of it.
// Where the number is `DONE`, the tree in the areas passes the check: the third clause, `BuiltRead` (specs/Reading.antt).
#[unsafe(no_mangle)]
pub extern "C" fn probe_build(
    vertices: &[f64],
    triangles: &[u32],
    node_boxes: &mut [f64],
    triangle_boxes: &mut [f64],
    node_words: &mut [u32],
    order: &mut [u32],
    work: &mut [u32],
    nodes: &mut [usize],
) -> u32
    ensures { BuildCall (mesh vertices.now triangles.now)
        (areas node_boxes.old triangle_boxes.old node_words.old order.old)
        work.old work.new nodes.old
        (built_returned result nodes.new
        (areas node_boxes.new triangle_boxes.new node_words.new order.new)) }
{
    exports::meshes::probe_build(
        vertices,
        triangles,
        node_boxes,
        triangle_boxes,
        node_words,
        order,
        work,
        nodes,
    )
}

// Lists the triangles of a tree whose boxes touch a box, ascending, and writes how many.
// The stack is a work area: unchanged after refusals 1 to 3, and past their tests nothing is promised of it.
// The third clause: for a mesh of so many triangles and a tree that passes the check, the list is each triangle whose box touches, once.
#[unsafe(no_mangle)]
pub extern "C" fn probe_query(
    min_x: f64,
    min_y: f64,
    min_z: f64,
    max_x: f64,
    max_y: f64,
    max_z: f64,
    triangles: usize,
    nodes: usize,
    node_boxes: &[f64],
    triangle_boxes: &[f64],
    node_words: &[u32],
    order: &[u32],
    list: &mut [u32],
    stack: &mut [u32],
    found: &mut [usize],
) -> u32
    ensures { QueryCall (box_of min_x min_y min_z max_x max_y max_z) triangles
        (tree_of nodes node_boxes.now triangle_boxes.now node_words.now order.now)
        list.old stack.old stack.new found.old
        (record { returned = record { number = result; count = found.new }; list = list.new }) }
{
    exports::meshes::probe_query(
        min_x,
        min_y,
        min_z,
        max_x,
        max_y,
        max_z,
        triangles,
        nodes,
        node_boxes,
        triangle_boxes,
        node_words,
        order,
        list,
        stack,
        found,
    )
}

// Whether a tree, from whatever builder, fits the mesh. The marks are a work area, unchanged after a refusal.
// Where the number is `YES`, the tree passes the check, as demand 3 asks it: the third clause.
#[unsafe(no_mangle)]
pub extern "C" fn probe_tree_check(
    vertices: &[f64],
    triangles: &[u32],
    nodes: usize,
    node_boxes: &[f64],
    triangle_boxes: &[f64],
    node_words: &[u32],
    order: &[u32],
    marks: &mut [u32],
) -> u32
    ensures { CheckCall (mesh vertices.now triangles.now)
        (tree_of nodes node_boxes.now triangle_boxes.now node_words.now order.now)
        marks.old marks.new result }
{
    exports::meshes::probe_tree_check(
        vertices,
        triangles,
        nodes,
        node_boxes,
        triangle_boxes,
        node_words,
        order,
        marks,
    )
}
