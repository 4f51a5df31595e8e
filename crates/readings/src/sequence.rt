// The last expression of a sequence.
ghost use Rattle.std.specs.Prelude.{◌≡◌, ◌+◌};
ghost use Rattle.tree.specs.Tree.{size};
ghost use Rattle.readings.specs.Sequence.{last_or_itself};
ghost use Rattle.readings.specs.View.{tree};

use crate::node::Node;
use fields::Kind;

impl<'a> Node<'a> {
    // Through nested sequences, each time the last child; a node that is none, or has no child, is itself. Its size falls at each call.
    // What is found ends where the node does, so there is one such record.
    pub fn last_expression_in_sequence(self) -> Node<'a>
        ensures last { tree result ≡ last_or_itself (tree self.entry) }
        ensures source { result.record.src.now ≡ self.entry.record.src.now }
        ensures ends { result.record.at + size (tree result) ≡ self.entry.record.at + size (tree self.entry) }
    {
        if !self.is_kind(Kind::Sequence) {
            return self;
        }
        match self.children().last() {
            Some(last) => last.last_expression_in_sequence(),
            None => self,
        }
    }
}
