// Why an operation refuses its input.
#![tactic(auto)]

ghost use Rattle.std.specs.Prelude.{◌≡◌, ◌++◌, Some, codes, decimal};
ghost use Rattle.refusal.specs.Number.{number_of};

use std::error::Error;
use std::fmt;

// Each refusal has the number that documents, programs and C give it.
#[derive(Clone, Copy, Debug, PartialEq, Eq, Hash)]
pub enum Refusal {
    Mark = 1,
    Version = 2,
    Settings = 3,
    Count = 4,
    // what a record says by itself, or an addition with a string part that is said to be a symbol
    Record = 5,
    // a kind that the operation does not take
    Kind = 6,
    Shape = 7,
    Depth = 8,
    // the output lent is too short
    Output = 9,
    // too few entries are lent
    Entries = 10,
    Scope = 11,
    Ancestor = 12,
    // a place that ends before it starts
    End = 17,
}

impl Refusal {
    pub fn number(self) -> u8
        ensures { result ≡ number_of self }
    {
        self as u8
    }
}

impl fmt::Display for Refusal {
    ghost output = { λ refusal. Some (codes "refused " ++ decimal (number_of refusal)) };

    fn fmt<W: fmt::Write>(&self, f: &mut fmt::Formatter<W>) -> fmt::Result {
        write!(f, "refused {}", self.number())
    }
}

impl Error for Refusal {}
