// A tree as a list of one, its first two children, and a walk over a list that goes into its trees.
ghost use Rattle.std.specs.Prelude.{◌≡◌, ◌+◌, [], ◌∷◌, option_map, slice_get};
ghost use Rattle.tree.specs.Tree.{count, size, trees};
ghost use Rattle.readings.specs.Entered.{entered};
ghost use Rattle.readings.specs.Sides.{first_two};
ghost use Rattle.readings.specs.View.{left, tree};

use crate::node::{Node, Trees};

impl<'a> Node<'a> {
    pub fn alone(self) -> Trees<'a>
        ensures trees { left result ≡ tree self.entry ∷ [] }
        ensures source { result.src.now ≡ self.entry.record.src.now }
    {
        Trees {
            src: self.record.src,
            at: self.record.at,
            end: self.record.at + self.size(),
        }
    }

    // Its first two children.
    pub fn first_two(self) -> Option<(Node<'a>, Node<'a>)>
        ensures { option_map (λ p. (tree p.0, tree p.1)) result ≡ first_two (trees (tree self.entry).kids) }
    {
        let mut children = self.children();
        let left = children.next()?;
        let right = children.next()?;
        Some((left, right))
    }

    // The three children of a conditional, one behind the other up to its end.
    pub fn three_children(self) -> (Node<'a>, Node<'a>, Node<'a>)
        requires { count (tree self).kids ≡ 3 }
        ensures kids { trees (tree self.entry).kids ≡ tree result.0 ∷ tree result.1 ∷ tree result.2 ∷ [] }
        ensures source { (result.0.record.src.now ≡ self.entry.record.src.now) × (result.1.record.src.now ≡ self.entry.record.src.now) × (result.2.record.src.now ≡ self.entry.record.src.now) }
        ensures ends { (result.1.record.at ≡ result.0.record.at + size (tree result.0)) × (result.2.record.at ≡ result.1.record.at + size (tree result.1)) × (result.2.record.at + size (tree result.2) ≡ self.entry.record.at + size (tree self.entry)) }
    {
        let mut children = self.children();
        let first = children.next().unwrap();
        let second = children.next().unwrap();
        let third = children.next().unwrap();
        (first, second, third)
    }
}

impl<'a> Trees<'a> {
    // The first tree, which stays in the list.
    pub fn first(self) -> Option<Node<'a>>
        ensures { option_map tree result ≡ slice_get (left self.entry) 0 }
    {
        let mut walk = self;
        walk.next()
    }

    // Goes into the first tree: the list is its children, and then the trees behind it.
    pub fn enter(&mut self)
        ensures { left self.new ≡ entered (left self.old) }
    {
        if self.at != self.end {
            self.at += 1;
        }
    }
}
