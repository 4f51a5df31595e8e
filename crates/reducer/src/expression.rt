// What is left of a tree, written from a record on: an expression reduces its children, and a list of children each expression.
// Remaining depth and remaining records fall at each call; siblings are walked by a loop, so that the stack is bounded by the depth.
ghost use Rattle.rules.specs.Reduce.{reduce};
ghost use Rattle.handlers.specs.Outcome.{HandledAs};
ghost use Rattle.handlers.specs.declared.outcome.Outcome.TheVariants as outcomes;
ghost use Rattle.readings.specs.Given.{given};
ghost use Rattle.readings.specs.View.{left, tree};
ghost use Rattle.rewrite.specs.Waiting.{none_at};
ghost use Rattle.reducer.specs.Conditional.{GivenConditional};
ghost use Rattle.reducer.specs.Given.{GivenTree, Reduced, GivenChild, ReducedChild, GivenChildren, ReducedChildren};

use crate::walk::Part;
use crate::{close, walk};
use fields::Record;
use handlers::outcome::{Outcome, Rewrite};
use readings::{Node, Settings, Trees};
use rewrite::Waiting;

// What a reduction goes by, and the buffer that what is left is written into.
#[derive(Drop)]
pub struct Reduction<'a> {
    pub settings: Settings<'a>,
    pub out: &'a mut [u8],
}

impl Reduction<'_> {
    // The trees of a list, written from record pos on. None wait at first.
    #[cycle(expression)]
    fn reduce_children(&mut self, list: Trees, part: Part, depth: usize, pos: usize) -> Waiting
        requires { GivenChildren list depth self.old.out.now pos }
        ensures { ReducedChildren (left list.entry) part self.old self.new (none_at pos) result }
    {
        let mut waiting = Waiting::none(pos);
        for node in list {
            waiting = self.reduce_child(node, part, depth, waiting);
        }
        waiting
    }

    // One child, behind those that are settled and those that wait.
    #[cycle(expression)]
    fn reduce_child(&mut self, node: Node, part: Part, depth: usize, waiting: Waiting) -> Waiting
        requires { GivenChild node depth self.old.out.now waiting }
        ensures { ReducedChild (tree node.entry) part self.old self.new waiting result }
    {
        if walk::waits(node, part) {
            let Record { src, at } = node.record;
            return rewrite::hold(src, at, node.size(), self.out, waiting);
        }
        let end = if walk::wraps(node.record, part) {
            rewrite::wrap_spread(node, node.size(), self.out, waiting.next)
        } else {
            self.remove_unused_expression(node, depth, waiting.next)
        };
        walk::settle(node.record, part, self.out, waiting, end)
    }

    #[cycle(expression)]
    pub fn remove_unused_expression(&mut self, node: Node, depth: usize, pos: usize) -> usize
        requires { GivenTree node depth self.old.out.now pos }
        ensures { Reduced self.old self.new pos result (reduce (given self.old.settings) (tree node.entry)) }
    {
        let below = depth - 1;
        match handlers::handle(node, self.settings) {
            Outcome::Removable => pos,
            Outcome::Unchanged => output::copy_node(node, self.out, pos),
            Outcome::Unwrapped => {
                let waiting = self.reduce_children(node.children(), Part::InOrder, below, pos);
                waiting.next
            }
            Outcome::Rewritten(made) => self.reduce_rewritten(node, made, depth, pos),
            Outcome::Arguments => {
                let mut arguments = node.children();
                arguments.next();
                let waiting = self.reduce_children(arguments, Part::Argument, below, pos + 1);
                rewrite::none_one_several(node.record, self.out, pos, waiting.next)
            }
            Outcome::Addition => addition::remove_unused_addition(node, self.out, pos),
            Outcome::Class => classes::remove_unused_class(node, self.out, pos),
            Outcome::Conditional => self.reduce_conditional(node, depth, pos),
        }
    }

    // A flagged conditional. Its arms are reduced first, behind records for itself and its test, which is copied only where an arm is
    // left: "both gone leaves the reduced test".
    #[cycle(expression)]
    fn reduce_conditional(&mut self, node: Node, depth: usize, pos: usize) -> usize
        requires { GivenConditional node depth (given self.old.settings) self.old.out.now pos }
        ensures { Reduced self.old self.new pos result (reduce (given self.old.settings) (tree node.entry)) }
    {
        let below = depth - 1;
        let (test, consequent, alternate) = node.three_children();
        let arms = pos + 1 + test.size();
        let middle = self.remove_unused_expression(consequent, below, arms);
        let end = self.remove_unused_expression(alternate, below, middle);
        if end == arms {
            return self.remove_unused_expression(test, below, pos);
        }
        let Record { src, at } = test.record;
        output::copy_records(src, at, test.size(), self.out, pos + 1);
        rewrite::join_arms(node.record, self.out, pos, arms, middle, end)
    }

    // A node that is rewritten over the list of what is left of its children, which stands behind the free record at pos.
    #[cycle(expression)]
    fn reduce_rewritten(&mut self, node: Node, made: Rewrite, depth: usize, pos: usize) -> usize
        requires tree { GivenTree node depth self.old.out.now pos }
        requires handles { HandledAs (given self.old.settings) (tree node) (outcomes.Rewritten made) }
        ensures { Reduced self.old self.new pos result (reduce (given self.old.settings) (tree node.entry)) }
    {
        let part = walk::part_under(made);
        let waiting = self.reduce_children(node.children(), part, depth - 1, pos + 1);
        let end = waiting.next;
        let record = node.record;
        match made {
            Rewrite::Sequence => rewrite::remove_unused_sequence_expr(record, self.out, pos, end),
            Rewrite::Array => rewrite::remove_unused_array_expr(record, self.out, pos, end),
            Rewrite::Template => close::close_template(record, self.out, pos, waiting),
            Rewrite::Object => close::close_object(record, self.out, pos, waiting),
            Rewrite::Comparison => rewrite::join_kept(record, self.out, pos, end),
        }
    }
}
