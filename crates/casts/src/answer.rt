ghost use Rattle.std.specs.Prelude.{◌≡◌};
ghost use Rattle.casts.specs.Answer.{number_of};

use vectors::vec3::Vec3;

/// Why a call gives no answer. The order is that of the numbers in the table of refusals, which other languages read.
#[derive(Clone, Copy, Debug, PartialEq, Eq, PartialOrd, Ord)]
pub enum Refusal {
    InvalidInput,
    BadShape,
    NoRoom,
    WrongPose,
    OutOfBounds,
    Overflow,
    NoNormal,
    NotConvergent,
    /// A range of a visited cell is out of order or not finite.
    BadRange,
    /// The next node of a walk would exceed the limit.
    LimitReached,
    /// A record's float is NaN, or no float of the form that is asked for.
    NotRepresentable,
    /// The exact cast's grid does not reach a ray or a corner.
    OutOfRange,
}

impl From<Refusal> for u32 {
    ghost from_gives = { λ refusal number. number ≡ number_of refusal };

    fn from(refusal: Refusal) -> u32 {
        match refusal {
            Refusal::InvalidInput => 1,
            Refusal::BadShape => 2,
            Refusal::NoRoom => 3,
            Refusal::WrongPose => 4,
            Refusal::OutOfBounds => 5,
            Refusal::Overflow => 6,
            Refusal::NoNormal => 7,
            Refusal::NotConvergent => 8,
            Refusal::BadRange => 9,
            Refusal::LimitReached => 10,
            Refusal::NotRepresentable => 11,
            Refusal::OutOfRange => 12,
        }
    }
}

/// A surface at a distance, with its unit normal.
#[derive(Clone, Copy)]
pub struct Hit {
    pub normal: Vec3,
    pub distance: f64,
}

/// A hit, none, or a refusal.
pub type Cast = Result<Option<Hit>, Refusal>;

/// The same without the normal: the distance of a hit.
pub type Reach = Result<Option<f64>, Refusal>;
