// What a node's own record says of it.
ghost use Rattle.std.specs.Prelude.{◌≡◌};
ghost use Rattle.fields.specs.Record.{head, node};
ghost use Rattle.rules.specs.Class.{decorated_class, decorated_element, has_static_value, index_signature, nonempty_static_block};
ghost use Rattle.rules.specs.Facts.{flagged, pure_new, summary_free};
ghost use Rattle.readings.specs.Given.{given};
ghost use Rattle.readings.specs.Symbol.{possible_symbol_if};

use crate::settings::Settings;
use fields::Record;

#[tactic(auto, unfolding(rules::specs::Facts::flagged))]
pub fn flagged(root: Record) -> bool
    ensures { result ≡ flagged (node root.entry) }
{
    root.facts() % 2 == 1
}

#[tactic(auto, using(std::proofs::lemmas::Bool::Decides::nat_tests), unfolding(rules::specs::Facts::pure_new, rules::specs::Facts::annotated, rules::specs::Facts::listed))]
pub fn pure_new(root: Record, settings: Settings) -> bool
    ensures { result ≡ pure_new (given settings.entry) (node root.entry) }
{
    let facts = root.facts();
    settings.annotations() && facts / 32 % 2 == 1 || facts / 64 % 2 == 1
}

// Whether the node is a possible symbol, where it is known whether it is a string.
#[tactic(auto, using(std::proofs::lemmas::Bool::Decides::nat_tests), unfolding(crate::specs::Symbol::possible_symbol_if))]
pub fn possible_symbol_if(root: Record, string: bool) -> bool
    ensures { result ≡ possible_symbol_if string (head root.entry) }
{
    root.facts() / 2 % 4 != 1 && !root.never_symbol_alone() && !(root.is_addition() && string)
}

#[tactic(auto, unfolding(rules::specs::Facts::summary_free))]
pub fn summary_free(root: Record) -> bool
    ensures { result ≡ summary_free (node root.entry) }
{
    root.facts() / 128 % 2 == 1
}

#[tactic(auto, unfolding(rules::specs::Class::decorated_class))]
pub fn decorated_class(root: Record) -> bool
    ensures { result ≡ decorated_class (node root.entry) }
{
    root.sub() % 2 == 1
}

#[tactic(auto, using(std::proofs::lemmas::Bool::Decides::nat_tests), unfolding(rules::specs::Class::has_static_value))]
pub fn has_static_value(root: Record) -> bool
    ensures { result ≡ has_static_value (node root.entry) }
{
    let sub = root.sub();
    sub / 8 % 2 == 1 && sub / 64 % 2 == 1
}

#[tactic(auto, using(std::proofs::lemmas::Bool::Decides::nat_tests), unfolding(rules::specs::Class::nonempty_static_block))]
pub fn nonempty_static_block(root: Record) -> bool
    ensures { result ≡ nonempty_static_block (node root.entry) }
{
    let sub = root.sub();
    sub % 8 == 4 && sub / 128 % 2 == 1
}

#[tactic(auto, unfolding(rules::specs::Class::decorated_element))]
pub fn decorated_element(root: Record) -> bool
    ensures { result ≡ decorated_element (node root.entry) }
{
    root.sub() / 32 % 2 == 1
}

#[tactic(auto, unfolding(rules::specs::Class::index_signature))]
pub fn index_signature(root: Record) -> bool
    ensures { result ≡ index_signature (node root.entry) }
{
    root.sub() % 8 == 5
}
