ghost use Rattle.std.specs.Prelude.{◌≡◌};
ghost use Rattle.results.specs.Results.{answered};
ghost use Rattle.slice_casts.specs.Slices.{plane_of_slices, triangle_of_slices};

// The cast at a plane of four numbers, of a ray of eight.
#[unsafe(no_mangle)]
pub extern "C" fn probe_ray_plane_slices(ray: &[f64], plane: &[f64], hit: &mut [f64]) -> u32
    ensures { record { number = result; hit = hit.new }
        ≡ answered (plane_of_slices ray.now plane.now) hit.old }
{
    exports::slices::probe_ray_plane_slices(ray, plane, hit)
}

// The cast at a triangle of nine numbers, of a ray of eight.
#[unsafe(no_mangle)]
pub extern "C" fn probe_ray_triangle_slices(ray: &[f64], triangle: &[f64], hit: &mut [f64]) -> u32
    ensures { record { number = result; hit = hit.new }
        ≡ answered (triangle_of_slices ray.now triangle.now) hit.old }
{
    exports::slices::probe_ray_triangle_slices(ray, triangle, hit)
}
