ghost use Rattle.std.specs.Prelude.{◌≡◌};
ghost use Rattle.wide_integers.specs.Sizes.{Sized};
ghost use Rattle.exact_triangle.specs.Sizes.{HeadingSized};
ghost use Rattle.tree_exact.specs.Room.{multiple, difference, sheared_room_by, holds_zero, reaches, passes};
ghost use Rattle.tree_exact.specs.Room.{SideSized, MultipleSized, DifferenceSized, RoomSized};

use exact_depth::projection::Projected;

// The whole numbers from low to high.
#[derive(Clone, Copy)]
pub struct Span {
    pub low: i64,
    pub high: i64,
}

// A box as a line faces it.
#[derive(Clone, Copy)]
pub struct Room {
    pub across: Span,
    pub up: Span,
    pub depth: Span,
}

// d times each number of a span.
fn multiple(s: Span, d: i64) -> Span
    requires { SideSized s × Sized 2147483648 d }
    ensures { result ≡ multiple d s }
{
    let first = s.low * d;
    let last = s.high * d;
    if first <= last {
        return Span {
            low: first,
            high: last,
        };
    }
    Span {
        low: last,
        high: first,
    }
}

// Each number of a span less each of another.
fn difference(s: Span, r: Span) -> Span
    requires { MultipleSized s × MultipleSized r }
    ensures { result ≡ difference s r }
{
    Span {
        low: s.low - r.high,
        high: s.high - r.low,
    }
}

// Whether a span holds 0.
fn holds_zero(s: Span) -> bool
    requires { DifferenceSized s }
    ensures { result ≡ holds_zero s }
{
    if s.low <= 0 {
        return 0 <= s.high;
    }
    false
}

// Whether the line passes a room across, or up, where its own is: side times the direction's depth less depth times the direction's side
// holds 0.
fn side_met(side: Span, depth: Span, onward: i64, aside: i64) -> bool
    requires { (SideSized side × SideSized depth) × (Sized 2147483648 onward × Sized 2147483648 aside) }
    ensures { result ≡ holds_zero (difference (multiple onward side) (multiple aside depth)) }
{
    holds_zero(difference(multiple(side, onward), multiple(depth, aside)))
}

// Whether a room has a depth from near on and one before past; ahead is 2^30 with the sign of the direction's depth.
fn depth_met(depth: Span, ahead: i64, near: i64, past: i64) -> bool
    requires { SideSized depth × Sized 2147483648 ahead }
    ensures { result ≡ reaches near past (multiple ahead depth) }
{
    let deep = multiple(depth, ahead);
    if near <= deep.high {
        return deep.low < past;
    }
    false
}

// Whether the line along d passes through a room at a depth from near on and before past.
pub fn passes(room: Room, d: Projected, ahead: i64, near: i64, past: i64) -> bool
    requires { RoomSized room × HeadingSized d ahead }
    ensures { result ≡ passes near past (sheared_room_by d ahead room) }
{
    let across = room.across;
    let up = room.up;
    let depth = room.depth;
    if !side_met(across, depth, d.depth, d.across) {
        return false;
    }
    if !side_met(up, depth, d.depth, d.up) {
        return false;
    }
    depth_met(depth, ahead, near, past)
}
