// A made node over the trees that stand behind its record.
ghost use Rattle.std.specs.Prelude.{◌+◌};
ghost use Rattle.fields.specs.Place.{said_in};
ghost use Rattle.output.specs.Lists.{Spanned};
ghost use Rattle.rewrite.specs.Made.{GivenMade, MadeOver, make_flagged, Makes, FlagOf};
ghost use Rattle.rules.specs.Made.{make_sequence, make_logical};

use fields::{Kind, Place};
use output::{Counts, MadeHead};

// "flag set if a child's is"
#[tactic(auto, using(crate::specs::Made::flag_told))]
fn flag_of(out: &[u8], at: usize, end: usize) -> u8
    requires { Spanned out.now at end }
    ensures { FlagOf out.now at end result }
{
    u8::from(output::any_flagged(out, at, end))
}

// The record at pos, over the trees from there to record end.
pub fn make_over(out: &mut [u8], pos: usize, end: usize, head: MadeHead)
    requires { GivenMade out.old pos end }
    ensures { MadeOver out.old out.new pos end head.kind head.sub head.facts (said_in out.old head.place) }
{
    let n = output::count_trees(out, pos + 1, end);
    let counts = Counts {
        children: n as u16,
        records: (end - pos) as u16,
    };
    output::make_at(out, pos, head, counts);
}

// The same, flagged if a tree is.
pub fn make_flagged(out: &mut [u8], pos: usize, end: usize, kind: u8, sub: u8, place: Place)
    requires { GivenMade out.old pos end }
    ensures { Makes (make_flagged kind sub) out.old out.new pos end (said_in out.old place) }
{
    let head = MadeHead {
        kind,
        sub,
        facts: flag_of(out, pos + 1, end),
        place,
    };
    make_over(out, pos, end, head);
}

#[tactic(auto, unfolding(rules::specs::Made::make_sequence))]
pub fn make_sequence(out: &mut [u8], pos: usize, end: usize, place: Place)
    requires { GivenMade out.old pos end }
    ensures { Makes make_sequence out.old out.new pos end (said_in out.old place) }
{
    make_flagged(out, pos, end, u8::from(Kind::Sequence), 0, place);
}

// "a logical node (kind 20, sub 1 for and, 2 for or)"
#[tactic(auto, unfolding(rules::specs::Made::make_logical))]
pub fn make_logical(out: &mut [u8], pos: usize, end: usize, sub: u8, place: Place)
    requires { GivenMade out.old pos end }
    ensures { Makes (make_logical sub) out.old out.new pos end (said_in out.old place) }
{
    make_flagged(out, pos, end, u8::from(Kind::Logical), sub, place);
}
