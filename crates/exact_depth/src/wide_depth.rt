ghost use Rattle.exact_depth.specs.FirstPoint.{kept};
ghost use Rattle.wide_integers.specs.Value.{value, Middling};
ghost use Rattle.exact_depth.specs.Answer.{wide_depth_of, Finds};

use wide_integers::number;
use wide_integers::number::Wide;

// The depth t / w, with w above 0: a `Fraction`, as theorems call it, in words.
#[derive(Clone, Copy)]
pub struct WideDepth {
    pub t: Wide,
    pub w: Wide,
}

// A depth from near to far, both included.
pub fn kept(at: WideDepth, near: i64, far: i64) -> Option<WideDepth>
    requires { Middling (value at.w) }
    ensures { Finds result (kept (wide_depth_of at) near far) }
{
    let least = number::times(at.w, near);
    if number::below(at.t, least) {
        return None;
    }
    let most = number::times(at.w, far);
    if number::below(most, at.t) {
        return None;
    }
    Some(at)
}
