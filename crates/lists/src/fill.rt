ghost use Rattle.std.specs.Prelude.{◌≡◌, ◌<◌, ◌≤◌, length, replicate};
ghost use Rattle.lists.specs.Lists.{range, over, zero_number};

// Zeros in every place. This and `zero_words` are each one call of the library's generic `fill`, and a generic function of both would be
// that call again.
pub fn zero_numbers(area: &mut [f64])
    ensures { area.new ≡ replicate (length area.old) zero_number }
{
    area.fill(0.0);
}

// Zeros in every place.
pub fn zero_words(area: &mut [u32])
    ensures { area.new ≡ replicate (length area.old) 0 }
{
    area.fill(0);
}

// 0, 1, 2, ..: each is a u32, which each caller shows.
pub fn number(area: &mut [u32])
    requires { length area.old < 4294967296 }
    ensures { area.new ≡ range 0 (length area.old) }
{
    for (i, place) in area.iter_mut().enumerate() {
        *place = i as u32;
    }
}

// A list copied over the front of another that is as long, which each caller shows.
pub fn copy(from: &[u32], to: &mut [u32])
    requires { length from.now ≤ length to.old }
    ensures { to.new ≡ over from.now to.old }
{
    for i in 0..from.len() {
        to[i] = from[i];
    }
}
