// What is left of a list of children, child by child, as the parent asks for it.
ghost use Rattle.std.specs.Prelude.{◌≡◌};
ghost use Rattle.fields.specs.Record.{head, node};
ghost use Rattle.readings.specs.View.{tree};
ghost use Rattle.reducer.specs.Walked.{part_under, waits, wraps};
ghost use Rattle.reducer.specs.Settled.{GivenSettled, SettlesKept, GivenSettle, Settles};

use fields::{Kind, Record};
use handlers::outcome::Rewrite;
use readings::Node;
use rewrite::Waiting;

// What a child is to its parent.
#[derive(Clone, Copy)]
pub enum Part {
    InOrder,
    // of a pure call or new: a spread is wrapped in an array (`fold_arguments_into_needed_expressions`)
    Argument,
    // of a template: a possible symbol waits
    Template,
    // of an object: a spread waits
    Object,
}

// What a node that is rewritten asks of its children.
pub fn part_under(made: Rewrite) -> Part
    ensures { result ≡ part_under made }
{
    match made {
        Rewrite::Sequence | Rewrite::Array | Rewrite::Comparison => Part::InOrder,
        Rewrite::Template => Part::Template,
        Rewrite::Object => Part::Object,
    }
}

pub fn waits(node: Node, part: Part) -> bool
    ensures { result ≡ waits part (tree node.entry) }
{
    match part {
        Part::InOrder | Part::Argument => false,
        Part::Template => node.possible_symbol(),
        Part::Object => node.is_kind(Kind::Spread),
    }
}

#[tactic(auto, unfolding(rules::specs::Handler::is_kind))]
pub fn wraps(root: Record, part: Part) -> bool
    ensures { result ≡ wraps part (node root.entry) }
{
    matches!(part, Part::Argument) && root.is_kind(Kind::Spread)
}

// Of another parent than an object. Only in a template any wait; elsewhere nothing is made.
fn settle_kept(out: &mut [u8], waiting: Waiting, end: usize) -> Waiting
    requires { GivenSettled out.old waiting end }
    ensures { SettlesKept out.old out.new waiting end result }
{
    let next = waiting.next;
    if end == next {
        return waiting;
    }
    let place = Record { src: out, at: next }.place();
    rewrite::flush_template(out, waiting, place);
    Waiting::none(end)
}

// What is left of the child stands behind what waits, up to record end: what waits before it waits no more, but goes on waiting in a
// template of whose child nothing is left.
pub fn settle(node: Record, part: Part, out: &mut [u8], waiting: Waiting, end: usize) -> Waiting
    requires { GivenSettle node out.old waiting end }
    ensures { Settles (head node.entry).place part out.old out.new waiting end result }
{
    match part {
        Part::InOrder | Part::Argument | Part::Template => settle_kept(out, waiting, end),
        Part::Object => {
            rewrite::flush_object(out, waiting, node.place());
            Waiting::none(end)
        }
    }
}
