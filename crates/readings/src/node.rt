// A tree that stands in a list of bytes, and trees that stand there one behind the other.
ghost use Rattle.std.specs.Prelude.{◌≡◌, ◌+◌, ◌-◌, ◌<◌, ◌≤◌};
ghost use Rattle.readings.specs.At.{NodeAt, NodeAt-prop, HeldAt, HeldAt-prop};

use fields::{Kind, Record};

// The tree whose root is this record.
#[derive(Clone, Copy)]
pub struct Node<'a> {
    pub record: Record<'a>,
    pub ghost stands: { NodeAt record.src.now record.at } by { NodeAt-prop record.src.now record.at },
}

// The trees from record `at` to record `end`: an iterator over them.
#[derive(Clone, Copy)]
pub struct Trees<'a> {
    pub src: &'a [u8],
    pub at: usize,
    pub end: usize,
    pub ghost ordered: { at ≤ end },
    pub ghost held: { HeldAt src.now at (end - at) } by { HeldAt-prop src.now at (end - at) },
}

impl<'a> Node<'a> {
    ghost use Rattle.tree.specs.Tree.{size, trees};
    ghost use Rattle.fields.specs.Kind.{number_of};
    ghost use Rattle.rules.specs.Handler.{is_kind};
    ghost use Rattle.readings.specs.View.{tree, left};

    #[tactic(auto, unfolding(rules::specs::Handler::is_kind, crate::specs::At::tree_at))]
    pub fn is_kind(self, kind: Kind) -> bool
        ensures { result ≡ is_kind (number_of kind) (tree self.entry) }
    {
        self.record.is_kind(kind)
    }

    // How many records it takes.
    pub fn size(self) -> usize
        ensures records { result ≡ size (tree self.entry) }
        ensures small { result < 65536 }
    {
        self.record.subtree()
    }

    pub fn children(self) -> Trees<'a>
        ensures trees { left result ≡ trees (tree self.entry).kids }
        ensures source { result.src.now ≡ self.entry.record.src.now }
        ensures ends { result.end ≡ self.entry.record.at + size (tree self.entry) }
    {
        Trees {
            src: self.record.src,
            at: self.record.at + 1,
            end: self.record.at + self.size(),
        }
    }
}

impl<'a> Iterator for Trees<'a> {
    ghost use Rattle.std.specs.Iterator.{item_count};
    ghost use Rattle.readings.specs.View.{left};
    ghost use Rattle.readings.specs.Yields.{StepsTree};

    type Item = Node<'a>;

    ghost next_gives = { StepsTree };

    ghost remaining = { item_count left };

    fn next(&mut self) -> Option<Node<'a>> {
        if self.at == self.end {
            return None;
        }
        let record = Record {
            src: self.src,
            at: self.at,
        };
        let node = Node { record };
        self.at += node.size();
        Some(node)
    }
}
