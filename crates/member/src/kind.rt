// The kinds of member, and the number that each has in a record.
ghost use Rattle.member.specs.Kind.{KindIs};

// A stringer carries the deck, a cross beam the stringers, a chord or a joint is part of a truss.
#[derive(Clone, Copy, PartialEq, Eq)]
pub enum Kind {
    Stringer,
    CrossBeam,
    Chord,
    DowelledJoint,
    KeyedJoint,
    SteelPlates,
    CloseStringer,
}

// A number that no kind has.
#[derive(Clone, Copy, PartialEq, Eq)]
pub struct UnknownKind(pub u16);

impl TryFrom<u16> for Kind {
    type Error = UnknownKind;

    ghost try_from_gives = { KindIs };

    fn try_from(number: u16) -> Result<Self, UnknownKind> {
        match number {
            1 => Ok(Kind::Stringer),
            2 => Ok(Kind::CrossBeam),
            3 => Ok(Kind::Chord),
            4 => Ok(Kind::DowelledJoint),
            5 => Ok(Kind::KeyedJoint),
            6 => Ok(Kind::SteelPlates),
            7 => Ok(Kind::CloseStringer),
            _ => Err(UnknownKind(number)),
        }
    }
}
