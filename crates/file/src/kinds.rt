// Numbers by kind, and choices, that cost no branch: a test by kind would often be mispredicted.
ghost use Rattle.std.specs.Prelude.{◌≡◌, ◌≤◌, cond};
ghost use Rattle.file.specs.Kinds.{bits_of, holds};

// What a table has for a kind, in `width` bits; the last are those of all kinds from 31 on.
#[tactic(auto, using(std::proofs::lemmas::Nat::one_shl), unfolding(crate::specs::Kinds::bits_of))]
pub fn bits_of(table: usize, width: u8, kind: u8) -> usize
    requires { width ≤ 2 }
    ensures { result ≡ bits_of table width kind }
{
    (table >> (width * kind.min(31))) % (1 << width)
}

// Whether a set has a kind: a table of one bit each.
#[tactic(auto, unfolding(crate::specs::Kinds::holds))]
pub fn has(kinds: usize, kind: u8) -> bool
    ensures { result ≡ holds kinds kind }
{
    bits_of(kinds, 1, kind) == 1
}

// A choice that the compiler makes without a branch.
pub fn pick<T: Copy>(test: bool, yes: T, no: T) -> T
    ensures { result ≡ cond test yes no }
{
    if test { yes } else { no }
}
