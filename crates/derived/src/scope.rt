ghost use Rattle.std.specs.Prelude.{◌≡◌, ◌||◌};
ghost use Rattle.derived.specs.Scopes.{decoded};

use refusal::Refusal;

const BLOCK: u8 = 1;

const ARROW: u8 = 2;

const CONSTRUCTOR: u8 = 4;

const LARGEST: u8 = BLOCK | ARROW | CONSTRUCTOR;

// A scope around a use of `this`.
#[derive(Clone, Copy)]
pub struct Scope {
    pub is_block: bool,
    pub is_arrow: bool,
    pub is_constructor: bool,
}

impl Scope {
    // What the bits of a byte say, of which the others say nothing.
    #[inline]
    pub fn decode(byte: u8) -> Scope
        ensures { result ≡ decoded byte }
    {
        Scope {
            is_block: byte & BLOCK != 0,
            is_arrow: byte & ARROW != 0,
            is_constructor: byte & CONSTRUCTOR != 0,
        }
    }

    // A block and an arrow have no `this` of their own. By `|`, both bits are one test in the walk.
    pub fn is_skipped(self) -> bool
        ensures { result ≡ (self.is_block || self.is_arrow) }
    {
        self.is_block | self.is_arrow
    }
}

impl TryFrom<u8> for Scope {
    type Error = Refusal;

    ghost use Rattle.derived.specs.Scopes.{Decodes};

    ghost try_from_gives = { Decodes };

    fn try_from(byte: u8) -> Result<Self, Refusal> {
        if byte > LARGEST {
            return Err(Refusal::Scope);
        }
        Ok(Scope::decode(byte))
    }
}
