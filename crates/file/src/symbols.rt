// Refusal 5 again: an addition with a string part that is said to be a symbol. By records, since the depth is not yet known.
ghost use Rattle.std.specs.Prelude.{◌≡◌};
ghost use Rattle.tree.specs.Refusal.{additions_ok};
ghost use Rattle.fields.specs.Record.{head};
ghost use Rattle.file.specs.Symbols.{goes_on, part_ok_at, GivenPart, Whole};

use crate::kinds::pick;
use fields::{Kind, Record};

// Whether the node is an addition that is said to be a symbol, or is on the left of one, as `symbol` says of it. Choices rather than a
// test by kind, which would often be mispredicted.
#[tactic(auto, using(std::proofs::lemmas::Bool::Decides::nat_tests), unfolding(crate::specs::Symbols::goes_on, tree::specs::Symbol::is_addition, tree::specs::Record::symbol_yes))]
fn goes_on(node: Record, symbol: bool) -> bool
    ensures { result ≡ goes_on symbol (head node.entry) }
{
    if symbol {
        return node.is_addition();
    }
    let addition = pick(node.is_kind(Kind::Binary), node.sub(), 0);
    let said = pick(addition == 2, node.facts() / 2 % 4, 0);
    said == 2
}

// Of such an addition its right side must be no string, and of the last node on the left the node itself.
#[tactic(auto, unfolding(crate::specs::Symbols::part_ok))]
fn part_ok(node: Record, symbol: bool, on: bool) -> bool
    requires { GivenPart node.src.now node.at on }
    ensures { result ≡ part_ok_at node.entry.src.now node.entry.at symbol on }
{
    if on {
        let src = node.src;
        let left = node.at + 1;
        let right = left + Record { src, at: left }.subtree();
        return !Record { src, at: right }.has_string_fact();
    }
    if symbol {
        return !node.has_string_fact();
    }
    true
}

// Linear: a chain of additions is one run of records, its left sides, so each part of it is looked at once.
#[tactic(auto, using(crate::specs::Symbols::walking_start, crate::specs::Symbols::walking_done, crate::specs::Symbols::part_fails, crate::specs::Symbols::part_passes))]
pub fn additions_ok(src: &[u8], n: usize) -> bool
    requires { Whole src.now n }
    ensures { result ≡ additions_ok src.now }
{
    let mut symbol = false;
    for at in 0..n {
        let node = Record { src, at };
        let on = goes_on(node, symbol);
        if !part_ok(node, symbol, on) {
            return false;
        }
        symbol = on;
    }
    true
}
