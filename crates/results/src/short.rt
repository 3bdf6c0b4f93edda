ghost use Rattle.std.specs.Prelude.{◌≡◌, ◌&&◌, ◌*◌, leb};
ghost use Rattle.geometry.specs.Segment.{ray_admitted};
ghost use Rattle.tree.specs.Mesh.{thirds, lengths_admitted};
ghost use Rattle.results.specs.Results.{short_of};

use casts::answer::Refusal;
use geometry::ray::Ray;
use mesh::cast;

// The number of the mesh cast, and of the listing, where a result slice is too short: 1 and 2 go before 3.
pub fn short_cast(ray: Ray, vertices: usize, triangles: usize, pose: usize, nodes: usize) -> u32
    ensures { result ≡ short_of (ray_admitted ray) (lengths_admitted vertices triangles
        && (lengths_admitted pose triangles && leb nodes (2 * thirds triangles))) }
{
    if !ray.validate() {
        return Refusal::InvalidInput.into();
    }
    if !cast::shape_admitted(vertices, triangles, pose, nodes) {
        return Refusal::BadShape.into();
    }
    Refusal::NoRoom.into()
}
