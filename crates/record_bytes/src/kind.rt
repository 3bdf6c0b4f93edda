ghost use Rattle.std.specs.Prelude.{◌≡◌};
ghost use Rattle.record_bytes.specs.Kinds.{byte_of, Named};

// The kinds of shape, in the order of their bytes.
#[derive(Clone, Copy, Debug, PartialEq, Eq)]
pub enum Kind {
    Plane,
    Triangle,
    Mesh,
    HeightGrid,
    DistanceGrid,
}

// A byte that names no kind of shape.
#[derive(Clone, Copy, Debug, PartialEq, Eq)]
pub struct UnknownKind(pub u8);

impl TryFrom<u8> for Kind {
    type Error = UnknownKind;

    ghost try_from_gives = { Named };

    fn try_from(byte: u8) -> Result<Kind, UnknownKind> {
        match byte {
            1 => Ok(Kind::Plane),
            2 => Ok(Kind::Triangle),
            3 => Ok(Kind::Mesh),
            4 => Ok(Kind::HeightGrid),
            5 => Ok(Kind::DistanceGrid),
            _ => Err(UnknownKind(byte)),
        }
    }
}

impl From<Kind> for u8 {
    ghost from_gives = { λ kind byte. byte ≡ byte_of kind };

    fn from(kind: Kind) -> u8 {
        match kind {
            Kind::Plane => 1,
            Kind::Triangle => 2,
            Kind::Mesh => 3,
            Kind::HeightGrid => 4,
            Kind::DistanceGrid => 5,
        }
    }
}
