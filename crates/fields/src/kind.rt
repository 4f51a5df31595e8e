// The kinds of nodes, by document 01's names and with its numbers; as definitions: crates/tree/specs/Kind.antt.
ghost use Rattle.std.specs.Prelude.{◌≡◌, ◌++◌, Some, codes, decimal};
ghost use Rattle.fields.specs.Kind.{Decodes, number_of};

use std::error::Error;
use std::fmt;

#[derive(Clone, Copy, Debug, PartialEq, Eq, PartialOrd, Ord, Hash)]
pub enum Kind {
    Literal = 1,
    Identifier = 2,
    Function = 3,
    Arrow = 4,
    OtherLeaf = 5,
    This = 6,
    Array = 7,
    Elision = 8,
    Spread = 9,
    Object = 10,
    Property = 11,
    Template = 12,
    Sequence = 13,
    Unary = 14,
    Binary = 15,
    Call = 16,
    New = 17,
    Class = 18,
    Element = 19,
    Logical = 20,
    Conditional = 21,
    Assignment = 22,
}

impl From<Kind> for u8 {
    ghost from_gives = { λ kind number. number ≡ number_of kind };

    fn from(kind: Kind) -> Self {
        kind as u8
    }
}

// A number that no kind has.
#[derive(Clone, Copy, Debug, PartialEq, Eq, Hash)]
pub struct UnknownKind(pub u8);

impl TryFrom<u8> for Kind {
    type Error = UnknownKind;

    ghost try_from_gives = { Decodes };

    fn try_from(number: u8) -> Result<Self, UnknownKind> {
        match number {
            1 => Ok(Kind::Literal),
            2 => Ok(Kind::Identifier),
            3 => Ok(Kind::Function),
            4 => Ok(Kind::Arrow),
            5 => Ok(Kind::OtherLeaf),
            6 => Ok(Kind::This),
            7 => Ok(Kind::Array),
            8 => Ok(Kind::Elision),
            9 => Ok(Kind::Spread),
            10 => Ok(Kind::Object),
            11 => Ok(Kind::Property),
            12 => Ok(Kind::Template),
            13 => Ok(Kind::Sequence),
            14 => Ok(Kind::Unary),
            15 => Ok(Kind::Binary),
            16 => Ok(Kind::Call),
            17 => Ok(Kind::New),
            18 => Ok(Kind::Class),
            19 => Ok(Kind::Element),
            20 => Ok(Kind::Logical),
            21 => Ok(Kind::Conditional),
            22 => Ok(Kind::Assignment),
            _ => Err(UnknownKind(number)),
        }
    }
}

impl fmt::Display for UnknownKind {
    ghost output = { λ unknown. Some (codes "no kind has the number " ++ decimal unknown.0) };

    fn fmt<W: fmt::Write>(&self, f: &mut fmt::Formatter<W>) -> fmt::Result {
        write!(f, "no kind has the number {}", self.0)
    }
}

impl Error for UnknownKind {}
