ghost use Rattle.std.specs.Prelude.{◌≡◌};
ghost use Rattle.derived.specs.Ancestors.{decoded};

use refusal::Refusal;

// An ancestor of a use of `this` in the syntax tree.
#[derive(Clone, Copy)]
pub enum Ancestor {
    Other,
    FieldOrAccessorValue,
    ConstructorMethod,
    ClassBody { has_heritage: bool },
}

const LARGEST: u8 = 4;

impl Ancestor {
    // A byte that stands for none is read as any other.
    #[inline]
    pub fn decode(byte: u8) -> Ancestor
        ensures { result ≡ decoded byte }
    {
        match byte {
            1 => Ancestor::FieldOrAccessorValue,
            2 => Ancestor::ConstructorMethod,
            3 => Ancestor::ClassBody {
                has_heritage: false,
            },
            4 => Ancestor::ClassBody { has_heritage: true },
            _ => Ancestor::Other,
        }
    }
}

impl TryFrom<u8> for Ancestor {
    type Error = Refusal;

    ghost use Rattle.derived.specs.Ancestors.{Decodes};

    ghost try_from_gives = { Decodes };

    fn try_from(byte: u8) -> Result<Self, Refusal> {
        if byte > LARGEST {
            return Err(Refusal::Ancestor);
        }
        Ok(Ancestor::decode(byte))
    }
}
