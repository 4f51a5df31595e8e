// Refusal 7: child counts, subtree sizes, and which kinds may stand where.
ghost use Rattle.std.specs.Prelude.{◌≡◌, true, ◌+◌, ◌<◌, ◌≤◌};
ghost use Rattle.tree.specs.Kind.{is_expression};
ghost use Rattle.tree.specs.Room.{records_in};
ghost use Rattle.tree.specs.Fields.{count_of, children_at};
ghost use Rattle.tree.specs.Children.{child_count_ok};
ghost use Rattle.tree.specs.Refusal.{children_end, shape_at, shape_ok};
ghost use Rattle.fields.specs.Record.{head};
ghost use Rattle.file.specs.Bounds.{least_children, most_children, count_within};
ghost use Rattle.file.specs.Parents.{kinds_under, first_under};

use crate::kinds::{bits_of, has, pick};
use fields::{Kind, Record};

// The kinds that may stand somewhere, a bit for each.
const EXPRESSIONS: usize = 0b1111_1111_1111_0111_1111_0100_1111_1111;

const ARRAY_CHILDREN: usize = 0b1111_1111_1111_0111_1111_0111_1111_1111;

const ARGUMENTS: usize = 0b1111_1111_1111_0111_1111_0110_1111_1111;

const OBJECT_CHILDREN: usize = 0b1010_0000_0000;

const CLASS_ELEMENTS: usize = 0b1000_0000_0000_0000_0000;

// The least number of children of a kind, and the most; a most of 3 is any number, unless the least is 3 too.
const LEAST_CHILDREN: usize = 0b11_10_00_00_01_01_10_01_00_00_00_00_01_00_00_00_00_00_00_00_00_00;

const MOST_CHILDREN: usize =
    0b11_11_11_11_11_11_11_11_11_11_11_10_11_11_11_11_10_01_11_11_11_11_01_00_11_00_00_00_00_00_00_11;

fn is_expression(kind: u8) -> bool
    ensures { result ≡ is_expression kind }
{
    has(EXPRESSIONS, kind)
}

fn least_children(kind: u8) -> usize
    ensures { result ≡ least_children kind }
{
    bits_of(LEAST_CHILDREN, 2, kind)
}

fn most_children(kind: u8) -> usize
    ensures { result ≡ most_children kind }
{
    bits_of(MOST_CHILDREN, 2, kind)
}

#[tactic(auto, using(std::proofs::lemmas::Bool::Decides::nat_tests), unfolding(crate::specs::Bounds::count_within))]
fn count_within(kind: u8, n: usize) -> bool
    ensures { result ≡ count_within kind n }
{
    let most = most_children(kind);
    if n <= most {
        return least_children(kind) <= n;
    }
    most == 3 && least_children(kind) != 3
}

#[tactic(auto, using(std::proofs::lemmas::Bool::Decides::nat_tests), unfolding(tree::specs::Children::child_count_ok))]
fn child_count_ok(node: Record) -> bool
    ensures { result ≡ child_count_ok (head node.entry) (children_at node.entry.src.now node.entry.at) }
{
    let sub = usize::from(node.sub());
    let n = node.children();
    if node.is_kind(Kind::Property) {
        return n == 1 + sub;
    }
    if node.is_kind(Kind::Class) {
        return sub / 2 % 2 <= n;
    }
    if node.is_kind(Kind::Element) {
        return n == sub / 16 % 2 + sub / 64 % 2;
    }
    count_within(node.kind(), n)
}

// The kinds that a node takes as children, but for a callee and a heritage.
#[tactic(auto, unfolding(crate::specs::Parents::kinds_under))]
fn kinds_under(node: Record) -> usize
    ensures { result ≡ kinds_under (head node.entry).kind }
{
    let array = pick(node.is_kind(Kind::Array), ARRAY_CHILDREN, EXPRESSIONS);
    let object = pick(node.is_kind(Kind::Object), OBJECT_CHILDREN, array);
    let call = pick(node.is_kind(Kind::Call), ARGUMENTS, object);
    let new = pick(node.is_kind(Kind::New), ARGUMENTS, call);
    pick(node.is_kind(Kind::Class), CLASS_ELEMENTS, new)
}

// The kinds that a node takes as its first child, where `kinds` are those of its others.
#[tactic(auto, unfolding(crate::specs::Parents::first_under))]
fn first_under(node: Record, kinds: usize) -> usize
    ensures { result ≡ first_under (head node.entry).kind (head node.entry).sub kinds }
{
    let heritage = pick(node.sub() / 2 % 2 == 1, EXPRESSIONS, kinds);
    let class = pick(node.is_kind(Kind::Class), heritage, kinds);
    let new = pick(node.is_kind(Kind::New), EXPRESSIONS, class);
    pick(node.is_kind(Kind::Call), EXPRESSIONS, new)
}

// Whether the node's children, from the record behind it on, end exactly at record end, and each may stand there.
fn children_end(node: Record, end: usize) -> bool
    requires { end ≤ records_in node.src.now }
    ensures { result ≡ children_end node.entry.src.now (head node.entry) true (children_at node.entry.src.now node.entry.at) (node.entry.at + 1) end }
{
    let kinds = kinds_under(node);
    let mut taken = first_under(node, kinds);
    let n = node.children();
    let src = node.src;
    let mut at = node.at + 1;
    for _ in 0..n {
        if end <= at {
            return false;
        }
        let child = Record { src, at };
        let size = child.subtree();
        if size == 0 || end - at < size || !has(taken, child.kind()) {
            return false;
        }
        taken = kinds;
        at += size;
    }
    at == end
}

#[tactic(auto, using(std::proofs::lemmas::Bool::Decides::nat_tests), unfolding(tree::specs::Refusal::shape_at))]
fn shape_at(node: Record, n: usize) -> bool
    requires { (n ≤ records_in node.src.now) × (node.at < n) }
    ensures { result ≡ shape_at node.entry.src.now n node.entry.at }
{
    let size = node.subtree();
    size <= n - node.at && child_count_ok(node) && children_end(node, node.at + size)
}

// Linear: a record is looked at once as itself and, as long as no record has failed, once as a child. Not made one with the other walks
// over the records, where it would be slower.
#[tactic(auto, using(std::proofs::lemmas::Bool::Decides::nat_tests, tree::specs::Below::all_none, tree::specs::Below::all_more), unfolding(tree::specs::Refusal::shape_ok))]
#[inline(never)]
pub fn shape_ok(src: &[u8], n: usize) -> bool
    requires { (n ≤ records_in src.now) × (n ≡ count_of src.now) × (0 < n) }
    ensures { result ≡ shape_ok src.now }
{
    let root = Record { src, at: 0 };
    if root.subtree() != n || !is_expression(root.kind()) {
        return false;
    }
    for at in 0..n {
        if !shape_at(Record { src, at }, n) {
            return false;
        }
    }
    true
}
