// Whether a node is a string, as the left side of an addition is read, and whether it is a possible symbol.
ghost use Rattle.std.specs.Prelude.{◌≡◌, IfSome, option_map};
ghost use Rattle.tree.specs.Symbol.{is_string};
ghost use Rattle.rules.specs.Facts.{possible_symbol};
ghost use Rattle.readings.specs.Sides.{sides_of};
ghost use Rattle.readings.specs.View.{tree};

use crate::alone;
use crate::node::Node;

impl<'a> Node<'a> {
    // Its two sides, if it is an addition.
    pub fn sides(self) -> Option<(Node<'a>, Node<'a>)>
        ensures sides { option_map (λ p. (tree p.0, tree p.1)) result ≡ sides_of (tree self.entry) }
        ensures source { IfSome result (λ p. (p.0.record.src.now ≡ self.entry.record.src.now) × (p.1.record.src.now ≡ self.entry.record.src.now)) }
    {
        if !self.record.is_addition() {
            return None;
        }
        let mut children = self.children();
        let left = children.next()?;
        let right = children.next()?;
        match children.next() {
            Some(_) => None,
            None => Some((left, right)),
        }
    }

    // Down the left sides of a chain of additions: each right side is looked at once.
    fn is_string(self) -> bool
        ensures { result ≡ is_string (tree self.entry) }
    {
        let mut node = self;
        while let Some((left, right)) = node.sides() {
            if right.record.has_string_fact() {
                return true;
            }
            node = left;
        }
        node.record.has_string_fact()
    }

    pub fn possible_symbol(self) -> bool
        ensures { result ≡ possible_symbol (tree self.entry) }
    {
        alone::possible_symbol_if(self.record, self.is_string())
    }
}
