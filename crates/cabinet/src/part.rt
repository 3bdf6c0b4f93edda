ghost use Rattle.std.specs.Prelude.{◌≡◌, ◌+◌, ◌≤◌, length, take, drop};
ghost use Rattle.cabinet.specs.Parts.{lent, lengths_of};

use casts::answer::Refusal;
use geometry::ray::Ray;
use nearest_hit::nearest::{IndexedCast, IndexedHit};
use vectors::vec3::Vec3;

// A range of an area, in elements. Laid out as C does, as Part is.
#[repr(C)]
#[derive(Clone, Copy)]
pub struct Span {
    pub start: usize,
    pub length: usize,
}

impl Span {
    // The elements of the range in an area that it does not leave.
    #[inline(always)]
    pub fn of<T>(self, area: &[T]) -> &[T]
        requires { self.start + self.length ≤ length area.now }
        ensures { result.now ≡ take self.length (drop self.start area.now) }
    {
        &area[self.start..self.start + self.length]
    }
}

// A part: its origin, its node count, and where its mesh and its tree stand in the lent areas. The header's `probe_part`, 128 bytes.
#[repr(C)]
#[derive(Clone, Copy)]
pub struct Part {
    pub origin: Vec3,
    pub nodes: usize,
    pub vertices: Span,
    pub triangles: Span,
    pub node_boxes: Span,
    pub triangle_boxes: Span,
    pub node_words: Span,
    pub order: Span,
}

// The six areas that the parts share, or what a part's ranges name of them.
#[derive(Clone, Copy)]
pub struct Areas<'a> {
    pub vertices: &'a [f64],
    pub triangles: &'a [u32],
    pub node_boxes: &'a [f64],
    pub triangle_boxes: &'a [f64],
    pub node_words: &'a [u32],
    pub order: &'a [u32],
}

impl Areas<'_> {
    pub fn lengths(self) -> Lengths
        ensures { result ≡ lengths_of (lent self.entry) }
    {
        Lengths {
            vertices: self.vertices.len(),
            triangles: self.triangles.len(),
            node_boxes: self.node_boxes.len(),
            triangle_boxes: self.triangle_boxes.len(),
            node_words: self.node_words.len(),
            order: self.order.len(),
        }
    }
}

// The lengths of the six areas.
#[derive(Clone, Copy)]
pub struct Lengths {
    pub vertices: usize,
    pub triangles: usize,
    pub node_boxes: usize,
    pub triangle_boxes: usize,
    pub node_words: usize,
    pub order: usize,
}

// A part's answer with the nodes spent on it.
#[derive(Clone, Copy)]
pub struct CastCost {
    pub spent: usize,
    pub cast: IndexedCast,
}

// A hit at a part, by the part's number.
#[derive(Clone, Copy)]
pub struct PartHit {
    pub part: usize,
    pub hit: IndexedHit,
}

// The nearest hit so far, or the first refusal.
pub type Found = Result<Option<PartHit>, Refusal>;

// The number of the next part, the nodes spent and what was found in the parts before it.
#[derive(Clone, Copy)]
pub struct Progress {
    pub part: usize,
    pub spent: usize,
    pub found: Found,
}

// With what every part is cast at, and what is known before the next; nothing is cast at unless `casting`.
#[derive(Clone, Copy)]
pub struct State {
    pub ray: Ray,
    pub limit: usize,
    pub casting: bool,
    pub at: Progress,
}

// What the first pass goes by: the lengths of the lent areas, and the lowest refusal so far.
#[derive(Clone, Copy)]
pub struct Look {
    pub areas: Lengths,
    pub list: usize,
    pub stack: usize,
    pub refusal: Option<Refusal>,
}
