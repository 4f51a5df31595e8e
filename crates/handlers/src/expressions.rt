// The handlers whose outcome hangs on more than a node's kind, by the Rust's names.
ghost use Rattle.std.specs.Prelude.{◌≡◌};
ghost use Rattle.readings.specs.Given.{given};
ghost use Rattle.readings.specs.View.{tree};
ghost use Rattle.handlers.specs.Choice.{of_unary, of_binary, of_call, of_new, of_template, of_object, of_class, of_conditional};

use crate::outcome::{Outcome, Rewrite};
use readings::{Node, Settings};

// The subs of a unary, and of a binary.
const VOID: u8 = 1;

const NOT: u8 = 2;

const TYPEOF: u8 = 3;

const COMPARISON: u8 = 1;

const ADDITION: u8 = 2;

pub fn remove_unused_unary_expr(node: Node) -> Outcome
    ensures { result ≡ of_unary (tree node.entry) }
{
    match node.record.sub() {
        VOID | NOT => Outcome::Unwrapped,
        TYPEOF if node.of_identifier() => Outcome::Removable,
        TYPEOF => Outcome::Unwrapped,
        _ => Outcome::stays_if(node.is_flagged()),
    }
}

pub fn remove_unused_binary_expr(node: Node) -> Outcome
    ensures { result ≡ of_binary (tree node.entry) }
{
    match node.record.sub() {
        COMPARISON => Outcome::Rewritten(Rewrite::Comparison),
        ADDITION if node.is_flagged() => Outcome::Addition,
        ADDITION => Outcome::Removable,
        _ => Outcome::stays_if(node.is_flagged()),
    }
}

pub fn remove_unused_call_expr(node: Node, settings: Settings) -> Outcome
    ensures { result ≡ of_call (given settings.entry) (tree node.entry) }
{
    if node.pure_call(settings) {
        Outcome::Arguments
    } else {
        Outcome::stays_if(node.has_side_effects_or_preserved_iife(settings))
    }
}

pub fn remove_unused_new_expr(node: Node, settings: Settings) -> Outcome
    ensures { result ≡ of_new (given settings.entry) (tree node.entry) }
{
    if node.pure_new(settings) {
        Outcome::Arguments
    } else {
        Outcome::Unchanged
    }
}

pub fn remove_unused_template_literal(node: Node) -> Outcome
    ensures { result ≡ of_template (tree node.entry) }
{
    if node.unchanged_template() {
        Outcome::Unchanged
    } else {
        Outcome::Rewritten(Rewrite::Template)
    }
}

pub fn remove_unused_object_expr(node: Node) -> Outcome
    ensures { result ≡ of_object (tree node.entry) }
{
    if node.only_spreads() {
        Outcome::stays_if(node.flagged_child())
    } else {
        Outcome::Rewritten(Rewrite::Object)
    }
}

pub fn remove_unused_class_expr(node: Node) -> Outcome
    ensures { result ≡ of_class (tree node.entry) }
{
    if node.classify_class_removability() {
        Outcome::Unchanged
    } else {
        Outcome::Class
    }
}

pub fn remove_unused_conditional_expr(node: Node) -> Outcome
    ensures { result ≡ of_conditional (tree node.entry) }
{
    if node.is_flagged() {
        Outcome::Conditional
    } else {
        Outcome::Removable
    }
}
