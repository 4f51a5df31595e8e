// `fold_string_addition_chain`, and the rule of an addition that uses it.
#![tactic(auto)]

ghost use Rattle.std.specs.Prelude.{◌≡◌, ◌+◌, ◌-◌, ◌<◌, ◌≤◌, [], ◌∷◌};
ghost use Rattle.tree.specs.Tree.{size};
ghost use Rattle.tree.specs.Layout.{version_in};
ghost use Rattle.tree.specs.Room.{records_in};
ghost use Rattle.rules.specs.Addition.{is_dropped_right};
ghost use Rattle.readings.specs.View.{tree};
ghost use Rattle.output.specs.Given.{GivenTree};
ghost use Rattle.output.specs.Records.{Recorded};
ghost use Rattle.output.specs.Trees.{Wrote};
ghost use Rattle.addition.specs.Sides.{GivenOne, Emptied, folded_right, GivenSides, SidesFolded};
ghost use Rattle.addition.specs.Fold.{Folds, RemovesAddition};

use fields::{Kind, Record};
use output::{Counts, MadeHead};
use readings::Node;

// Where a folded side ends, and whether it is a string.
#[derive(Clone, Copy)]
pub struct Folded {
    pub next: usize,
    pub string: bool,
}

// The tree that stands in out from record at to record next: "an unflagged left becomes the empty literal at its own place".
#[tactic(auto, using(tree::specs::Room::place_said, crate::specs::Sides::one_inside, crate::specs::Sides::flagged_stays, crate::specs::Sides::clear_emptied))]
fn empty_unless_flagged(out: &mut [u8], at: usize, next: usize) -> usize
    requires { GivenOne out.old at next }
    ensures { Emptied out.old out.new at next result }
{
    let side = Record { src: out, at };
    if readings::flagged(side) {
        return next;
    }
    let empty = MadeHead {
        kind: u8::from(Kind::Literal),
        sub: 0,
        facts: 18,
        place: side.place(),
    };
    let counts = Counts {
        children: 0,
        records: 1,
    };
    output::make_at(out, at, empty, counts);
    at + 1
}

// "a right side that is no symbol and unflagged is dropped"
#[tactic(auto, unfolding(rules::specs::Addition::is_dropped_right))]
fn is_dropped_right(node: Node) -> bool
    ensures { result ≡ is_dropped_right (tree node.entry) }
{
    !node.possible_symbol() && !node.is_flagged()
}

// The right side: "a right side that is a string and unflagged becomes the empty literal".
#[tactic(auto, using(readings::specs::Alone::own_string_fact, crate::specs::Sides::copied_one, crate::specs::Sides::right_emptied, crate::specs::Sides::right_copied))]
fn fold_right(node: Node, out: &mut [u8], pos: usize) -> usize
    requires { GivenTree node out.old pos }
    ensures { Wrote out.old out.new pos result (folded_right (tree node.entry) ∷ []) }
{
    let next = output::copy_node(node, out, pos);
    if node.record.has_string_fact() {
        return empty_unless_flagged(out, pos, next);
    }
    next
}

// The addition, over two sides that stand behind record pos of out, up to record end.
fn keep_over(node: Node, out: &mut [u8], pos: usize, end: usize)
    requires { (pos + 1 ≤ records_in out.old) × (version_in out.old ≡ version_in node.record.src.now) × (pos ≤ end) × (end < pos + 65536) }
    ensures { Recorded out.old out.new pos (tree node.entry).head 2 (end - pos) }
{
    let counts = Counts {
        children: 2,
        records: (end - pos) as u16,
    };
    output::keep_at(node.record, out, pos, counts);
}

// The addition, written from record pos of out on. Its left side stands behind that record, folded already.
#[tactic(auto, using(crate::specs::Sides::one_addition))]
fn fold_sides(node: Node, right: Node, out: &mut [u8], pos: usize, left: Folded) -> usize
    requires { GivenSides node right out.old pos left.next }
    ensures { SidesFolded (tree node.entry) (tree right.entry) left.string out.old out.new pos left.next result }
{
    if left.string {
        let next = empty_unless_flagged(out, pos + 1, left.next);
        if is_dropped_right(right) {
            output::move_down(out, pos, next - pos - 1);
            return next - 1;
        }
        let end = output::copy_node(right, out, next);
        keep_over(node, out, pos, end);
        return end;
    }
    let end = fold_right(right, out, left.next);
    keep_over(node, out, pos, end);
    end
}

// The tree, written to out from record pos on. "The fold goes down left children only."
#[tactic(auto, using(readings::specs::Alone::own_string_fact, readings::specs::Sides::left_smaller, crate::specs::Fold::lone_folds, crate::specs::Fold::sum_folds, crate::specs::Fold::left_given))]
fn fold_string_addition_chain(node: Node, out: &mut [u8], pos: usize) -> Folded
    requires { GivenTree node out.old pos × (size (tree node) < 65536) }
    ensures { Folds (tree node.entry) out.old out.new pos result.next result.string }
{
    match node.sides() {
        Some((left, right)) => {
            let folded = fold_string_addition_chain(left, out, pos + 1);
            let next = fold_sides(node, right, out, pos, folded);
            let string = folded.string || right.record.has_string_fact();
            Folded { next, string }
        }
        None => {
            let next = output::copy_node(node, out, pos);
            let string = node.record.has_string_fact();
            Folded { next, string }
        }
    }
}

// "`fold_string_addition_chain`, then removable exactly if a string literal remains"
pub fn remove_unused_addition(node: Node, out: &mut [u8], pos: usize) -> usize
    requires { GivenTree node out.old pos × (size (tree node) < 65536) }
    ensures { RemovesAddition (tree node.entry) out.old out.new pos result }
{
    let folded = fold_string_addition_chain(node, out, pos);
    let kept = Record { src: out, at: pos };
    if kept.is_kind(Kind::Literal) {
        return pos;
    }
    folded.next
}
