// A list of trees that stands in a buffer, from one record to another: how many, and what any of them says.
ghost use Rattle.rules.specs.Facts.{flagged};
ghost use Rattle.rules.specs.Handler.{is_spread};
ghost use Rattle.output.specs.Lists.{AnyOf, Counts, Lists, Spanned};

use fields::Kind;
use readings::Trees;

fn trees_between(s: &[u8], at: usize, end: usize) -> Trees<'_>
    requires { Spanned s.now at end }
    ensures { Lists s.now at end result }
{
    Trees { src: s, at, end }
}

pub fn count_trees(s: &[u8], at: usize, end: usize) -> usize
    requires { Spanned s.now at end }
    ensures { Counts s.now at end result }
{
    trees_between(s, at, end).count()
}

pub fn any_flagged(s: &[u8], at: usize, end: usize) -> bool
    requires { Spanned s.now at end }
    ensures { AnyOf s.now at end flagged result }
{
    trees_between(s, at, end).any(|tree| tree.is_flagged())
}

pub fn any_spread(s: &[u8], at: usize, end: usize) -> bool
    requires { Spanned s.now at end }
    ensures { AnyOf s.now at end is_spread result }
{
    trees_between(s, at, end).any(|tree| tree.is_kind(Kind::Spread))
}
