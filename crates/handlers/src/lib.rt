// What becomes of a node, by its kind, its facts and the settings: the handlers of `remove_unused_expression`.
#![tactic(auto)]

ghost use Rattle.std.specs.Prelude.{◌≡◌};
ghost use Rattle.readings.specs.Given.{given};
ghost use Rattle.readings.specs.View.{tree};
ghost use Rattle.handlers.specs.Choice.{choice};

use crate::outcome::{Outcome, Rewrite};
use fields::Kind;
use readings::{Node, Settings};

mod expressions;
pub mod outcome;

#[tactic(auto, using(crate::specs::Kinds::choices, readings::specs::At::head_is))]
pub fn handle(node: Node, settings: Settings) -> Outcome
    ensures { result ≡ choice (given settings.entry) (tree node.entry) }
{
    match Kind::try_from(node.record.kind()) {
        Ok(Kind::Literal | Kind::Identifier | Kind::Function | Kind::Arrow | Kind::OtherLeaf) => {
            Outcome::stays_if(node.is_flagged())
        }
        Ok(Kind::This) => Outcome::stays_if(settings.derived()),
        Ok(Kind::Array) => Outcome::Rewritten(Rewrite::Array),
        Ok(Kind::Elision) => Outcome::Removable,
        Ok(Kind::Spread) => Outcome::stays_if(node.is_flagged()),
        Ok(Kind::Object) => expressions::remove_unused_object_expr(node),
        Ok(Kind::Property) => Outcome::Unwrapped,
        Ok(Kind::Template) => expressions::remove_unused_template_literal(node),
        Ok(Kind::Sequence) => Outcome::Rewritten(Rewrite::Sequence),
        Ok(Kind::Unary) => expressions::remove_unused_unary_expr(node),
        Ok(Kind::Binary) => expressions::remove_unused_binary_expr(node),
        Ok(Kind::Call) => expressions::remove_unused_call_expr(node, settings),
        Ok(Kind::New) => expressions::remove_unused_new_expr(node, settings),
        Ok(Kind::Class) => expressions::remove_unused_class_expr(node),
        Ok(Kind::Conditional) => expressions::remove_unused_conditional_expr(node),
        Ok(Kind::Element | Kind::Logical | Kind::Assignment) | Err(_) => Outcome::Unchanged,
    }
}
