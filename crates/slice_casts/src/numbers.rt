ghost use Rattle.std.specs.Prelude.{◌≡◌, length};
ghost use Rattle.slice_casts.specs.Slices.{ray_in, plane_in, corners_in};

use casts::plane::Plane;
use geometry::ray::Ray;
use tree::layout;
use vectors::vec3::Vec3;

// The ray of eight numbers.
pub fn ray_in(ray: &[f64]) -> Ray
    requires { length ray.now ≡ 8 }
    ensures { result ≡ ray_in ray.now }
{
    Ray {
        origin: layout::vector_at(ray, 0),
        direction: layout::vector_at(ray, 3),
        max_distance: ray[6],
        near: ray[7],
    }
}

// The plane of four numbers.
pub fn plane_in(plane: &[f64]) -> Plane
    requires { length plane.now ≡ 4 }
    ensures { result ≡ plane_in plane.now }
{
    Plane {
        normal: layout::vector_at(plane, 0),
        distance: plane[3],
    }
}

// The corners of nine numbers.
pub fn corners_in(triangle: &[f64]) -> [Vec3; 3]
    requires { length triangle.now ≡ 9 }
    ensures { result ≡ corners_in triangle.now }
{
    [
        layout::vector_at(triangle, 0),
        layout::vector_at(triangle, 3),
        layout::vector_at(triangle, 6),
    ]
}
