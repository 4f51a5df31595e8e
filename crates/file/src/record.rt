// Refusals 5 and 6: what a record may say by itself.
ghost use Rattle.std.specs.Prelude.{◌≡◌, ◌≤◌};
ghost use Rattle.tree.specs.Below.{all_below};
ghost use Rattle.tree.specs.Room.{records_in};
ghost use Rattle.tree.specs.Fields.{head_at};
ghost use Rattle.tree.specs.Record.{allowed_facts, pairs_ok, facts_ok, element_sub_ok, sub_ok, record_ok, taken};
ghost use Rattle.fields.specs.Record.{head};
ghost use Rattle.file.specs.Facts.{never_kind};
ghost use Rattle.file.specs.Bounds.{least_sub, more_subs};

use crate::kinds::{bits_of, pick};
use fields::{Kind, Record};

// The permitted fact bits of a node: 1 is the flag, 31 the flag and both pairs, 127 these with annotated and listed, and 255 all.
#[tactic(auto, unfolding(tree::specs::Record::allowed_facts))]
fn allowed_facts(node: Record) -> usize
    ensures { result ≡ allowed_facts (head node.entry).kind }
{
    let new = pick(node.is_kind(Kind::New), 127, 31);
    let call = pick(node.is_kind(Kind::Call), 255, new);
    let spread = pick(node.is_kind(Kind::Spread), 1, call);
    let element = pick(node.is_kind(Kind::Element), 0, spread);
    let property = pick(node.is_kind(Kind::Property), 0, element);
    pick(node.is_kind(Kind::Elision), 0, property)
}

// Whether bits 1 to 4 of the facts are permitted, a bit for each number: the string pair times 4 and the symbol pair. The bits of
// string unknown stand last, then those of string no, of string yes and of no such pair.
const PAIRS_OK: u16 = 0b0000_0010_0111_0111;

fn pairs_ok(facts: u8) -> bool
    ensures { result ≡ pairs_ok facts }
{
    (PAIRS_OK >> (facts / 2 % 16)) % 2 == 1
}

// Template, unary and binary nodes may be such that they can never be a symbol.
const NEVER_SYMBOL: usize = 0b1101_0000_0000_0000;

fn never_kind(kind: u8) -> usize
    ensures { result ≡ never_kind kind }
{
    bits_of(NEVER_SYMBOL, 1, kind)
}

#[tactic(auto, using(std::proofs::lemmas::Bool::Decides::nat_tests, crate::specs::Facts::facts_as))]
fn facts_ok(node: Record) -> bool
    ensures { result ≡ facts_ok (head node.entry) }
{
    let facts = node.facts();
    if node.is_kind(Kind::Literal) {
        return facts == 18;
    }
    // Allowed facts are one less than a power of two, so no more than they means no other bit. Last, 1 for such a kind and 2 for a symbol:
    // a sum in place of a test by either, which would often be mispredicted.
    usize::from(facts) <= allowed_facts(node)
        && pairs_ok(facts)
        && (never_kind(node.kind()) + usize::from(facts / 2 % 4) != 3 || !node.never_symbol_alone())
}

#[tactic(auto, using(std::proofs::lemmas::Bool::Decides::nat_tests), unfolding(tree::specs::Record::element_sub_ok))]
fn element_sub_ok(sub: u8) -> bool
    ensures { result ≡ element_sub_ok sub }
{
    let form = sub % 8;
    matches!(form, 1..=5)
        && (form <= 3 || sub / 8 % 16 == 0)
        && (sub / 128 == 0 || form == 4)
        && (sub / 64 % 2 == 0 || matches!(form, 2 | 3))
}

// The least sub of a kind, and how many more there are, but for class elements.
const LEAST_SUB: usize = 0b1100_0000_0000_0000;

const MORE_SUBS: usize = 0b10_00_11_00_00_10_11_00_00_01_00_00_00_00_00_00_00_00_00_00_00;

fn least_sub(kind: u8) -> usize
    ensures { result ≡ least_sub kind }
{
    bits_of(LEAST_SUB, 1, kind)
}

fn more_subs(kind: u8) -> usize
    ensures { result ≡ more_subs kind }
{
    bits_of(MORE_SUBS, 2, kind)
}

// Two bounds by kind rather than a test by kind, which would often be mispredicted.
#[tactic(auto, using(std::proofs::lemmas::Bool::Decides::nat_tests), unfolding(tree::specs::Record::sub_ok))]
fn sub_ok(node: Record) -> bool
    ensures { result ≡ sub_ok (head node.entry) }
{
    if node.is_kind(Kind::Element) {
        return element_sub_ok(node.sub());
    }
    let kind = node.kind();
    let sub = usize::from(node.sub());
    let least = least_sub(kind);
    least <= sub && sub <= least + more_subs(kind)
}

#[tactic(auto, using(std::proofs::lemmas::Bool::Decides::nat_tests), unfolding(tree::specs::Record::record_ok))]
fn record_ok(node: Record) -> bool
    ensures { result ≡ record_ok (head node.entry) }
{
    Kind::try_from(node.kind()).is_ok() && facts_ok(node) && sub_ok(node) && node.reserved() == 0
}

#[tactic(auto, using(std::proofs::lemmas::Bool::Decides::nat_tests), unfolding(tree::specs::Record::included, tree::specs::Record::logical_taken))]
fn taken(node: Record, logicals: bool) -> bool
    ensures { result ≡ taken logicals (head node.entry) }
{
    if node.is_kind(Kind::Logical) {
        return logicals && node.sub() != 0;
    }
    !node.is_kind(Kind::Assignment)
}

// Whether each of the first n records passes the test of refusal 5.
#[tactic(auto, using(tree::specs::Below::all_none, tree::specs::Below::all_more))]
pub fn records_ok(src: &[u8], n: usize) -> bool
    requires { n ≤ records_in src.now }
    ensures { result ≡ all_below (λ i. record_ok (head_at src.now i)) n }
{
    for at in 0..n {
        if !record_ok(Record { src, at }) {
            return false;
        }
    }
    true
}

// Whether each of the first n records passes the test of refusal 6.
#[tactic(auto, using(tree::specs::Below::all_none, tree::specs::Below::all_more))]
pub fn all_taken(src: &[u8], n: usize, logicals: bool) -> bool
    requires { n ≤ records_in src.now }
    ensures { result ≡ all_below (λ i. taken logicals (head_at src.now i)) n }
{
    for at in 0..n {
        if !taken(Record { src, at }, logicals) {
            return false;
        }
    }
    true
}
