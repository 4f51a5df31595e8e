// Records copied, moved, kept and made.
ghost use Rattle.std.specs.Prelude.{◌≡◌, ◌+◌, ◌<◌, ◌≤◌, [], ◌∷◌, length};
ghost use Rattle.tree.specs.Offset as offset;
ghost use Rattle.tree.specs.Layout.{version_by, version_in, width};
ghost use Rattle.tree.specs.Room.{records_in};
ghost use Rattle.fields.specs.Place.{as_place, said_in};
ghost use Rattle.fields.specs.Record.{head};
ghost use Rattle.readings.specs.View.{left, tree};
ghost use Rattle.rules.specs.Made.{made_head};
ghost use Rattle.output.specs.Bytes.{Moved, Patched, Placed, Made};
ghost use Rattle.output.specs.Records.{MovedRecords, Recorded};
ghost use Rattle.output.specs.Given.{GivenTree, GivenTrees};
ghost use Rattle.output.specs.Trees.{CopiedTree, Wrote};

use fields::{Place, Record, offset};
use readings::{Node, Trees};

// What a made record says beside its counts.
#[derive(Drop)]
pub struct MadeHead {
    pub kind: u8,
    pub sub: u8,
    pub facts: u8,
    pub place: Place,
}

// How many children a node has, and how many records it takes, its own among them.
#[derive(Drop)]
pub struct Counts {
    pub children: u16,
    pub records: u16,
}

// Copies n bytes of src from p on to out from q on.
pub fn copy_bytes(src: &[u8], p: usize, n: usize, out: &mut [u8], q: usize)
    requires { (p + n ≤ length src.now) × (q + n ≤ length out.old) }
    ensures { Moved src.now p n out.old out.new q }
{
    for i in 0..n {
        out[q + i] = src[p + i];
    }
}

// Copies n records of src from record at on to out, whose records are as wide, from record pos on.
#[tactic(auto, using(crate::specs::Records::moved_none, crate::specs::Records::records_inside))]
pub fn copy_records(src: &[u8], at: usize, n: usize, out: &mut [u8], pos: usize)
    requires { (at + n ≤ records_in src.now) × (pos + n ≤ records_in out.old) × (version_in out.old ≡ version_in src.now) }
    ensures { MovedRecords src.now at n out.old out.new pos }
{
    if n == 0 {
        return;
    }
    let from = Record { src, at }.start();
    let to = Record { src: out, at: pos }.start();
    let length = fields::width_of(src) * n;
    copy_bytes(src, from, length, out, to);
}

// Copies the tree at record at, of size records, to out from record pos on. Returns where it ends.
pub fn copy_tree(src: &[u8], at: usize, size: usize, out: &mut [u8], pos: usize) -> usize
    requires { (at + size ≤ records_in src.now) × (pos + size ≤ records_in out.old) × (version_in out.old ≡ version_in src.now) }
    ensures { CopiedTree src.now at size out.old out.new pos result }
{
    copy_records(src, at, size, out, pos);
    pos + size
}

// The same of a node's tree.
pub fn copy_node(node: Node, out: &mut [u8], pos: usize) -> usize
    requires { GivenTree node out.old pos }
    ensures { Wrote out.old out.new pos result (tree node.entry ∷ []) }
{
    let Record { src, at } = node.record;
    copy_tree(src, at, node.size(), out, pos)
}

// The same of trees that stand one behind the other.
pub fn copy_trees(trees: Trees, out: &mut [u8], pos: usize) -> usize
    requires { GivenTrees trees out.old pos }
    ensures { Wrote out.old out.new pos result (left trees.entry) }
{
    let size = trees.end - trees.at;
    copy_records(trees.src, trees.at, size, out, pos);
    pos + size
}

// Moves n records of out, those behind record pos, down by one.
#[tactic(auto, using(crate::specs::Records::records_within))]
pub fn move_down(out: &mut [u8], pos: usize, n: usize)
    requires { pos + 1 + n ≤ records_in out.old }
    ensures { MovedRecords out.old (pos + 1) n out.old out.new pos }
{
    let to = Record { src: out, at: pos }.start();
    let width = fields::width_of(out);
    for q in to..to + width * n {
        out[q] = out[q + width];
    }
}

// The record that part starts with has these counts.
fn patch(part: &mut [u8], counts: Counts)
    requires { offset.end ≤ length part.old }
    ensures { Patched part.old part.new counts.children counts.records }
{
    le::put16(part, offset::CHILDREN, counts.children);
    le::put16(part, offset::SUBTREE, counts.records);
}

// Record pos of out becomes this record, but with these counts: the part that starts there is lent.
pub fn keep_at(kept: Record, out: &mut [u8], pos: usize, counts: Counts)
    requires { (pos + 1 ≤ records_in out.old) × (version_in out.old ≡ version_in kept.src.now) }
    ensures { Recorded out.old out.new pos (head kept.entry) counts.children counts.records }
{
    copy_records(kept.src, kept.at, 1, out, pos);
    let p = Record { src: out, at: pos }.start();
    patch(&mut out[p..], counts);
}

// The record that part starts with stands at this place; `ends` says whether it has an end.
#[tactic(auto, using(tree::specs::Room::fields_within), unfolding(tree::specs::Layout::width))]
fn put_place(part: &mut [u8], ends: bool, place: Place)
    requires { width (version_by ends) ≤ length part.old }
    ensures { Placed (version_by ends) part.old part.new (as_place place) }
{
    le::put32(part, offset::PLACE, place.start);
    if ends {
        le::put32(part, offset::END, place.end);
    }
}

// The record that part starts with is made anew.
fn make(part: &mut [u8], ends: bool, head: MadeHead, counts: Counts)
    requires { (offset.end ≤ length part.old) × (width (version_by ends) ≤ length part.old) }
    ensures { Made (version_by ends) part.old part.new head.kind head.sub head.facts (as_place head.place) counts.children counts.records }
{
    part[offset::KIND] = head.kind;
    part[offset::FACTS] = head.facts;
    part[offset::SUB] = head.sub;
    part[offset::RESERVED] = 0;
    le::put16(part, offset::CHILDREN, counts.children);
    le::put16(part, offset::SUBTREE, counts.records);
    le::put32(part, offset::TEXT, 0);
    put_place(part, ends, head.place);
}

// Record pos of out is made: "text 0, symbol and string unknown", at a place as the records of out say it.
#[tactic(auto, using(crate::specs::Parts::part_wide))]
pub fn make_at(out: &mut [u8], pos: usize, head: MadeHead, counts: Counts)
    requires { pos + 1 ≤ records_in out.old }
    ensures { Recorded out.old out.new pos (made_head head.kind head.sub head.facts (said_in out.old head.place)) counts.children counts.records }
{
    let p = Record { src: out, at: pos }.start();
    let ends = fields::has_ends(out);
    make(&mut out[p..], ends, head, counts);
}
