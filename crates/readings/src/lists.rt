// What is said of a node itself, of its first child, and of some or of all of its children.
ghost use Rattle.std.specs.Prelude.{◌≡◌};
ghost use Rattle.tree.specs.Tree.{trees};
ghost use Rattle.rules.specs.Lists.{every};
ghost use Rattle.rules.specs.Facts.{flagged, flagged_child, only_spreads, possible_symbol, test_is_yes, unchanged_template};
ghost use Rattle.readings.specs.Given.{given};
ghost use Rattle.readings.specs.View.{tree};

use crate::alone;
use crate::node::Node;
use crate::settings::Settings;
use fields::Kind;

impl Node<'_> {
    #[tactic(auto, using(crate::specs::Alone::own))]
    pub fn is_flagged(self) -> bool
        ensures { result ≡ flagged (tree self.entry) }
    {
        alone::flagged(self.record)
    }

    pub fn flagged_child(self) -> bool
        ensures { result ≡ flagged_child (tree self.entry) }
    {
        self.children().any(|child| child.is_flagged())
    }

    pub fn only_spreads(self) -> bool
        ensures { result ≡ only_spreads (tree self.entry) }
    {
        self.children().all(|child| child.is_kind(Kind::Spread))
    }

    fn only_possible_symbols(self) -> bool
        ensures { result ≡ every possible_symbol (trees (tree self.entry).kids) }
    {
        self.children().all(|child| child.possible_symbol())
    }

    // Of a template.
    #[tactic(auto, using(std::proofs::lemmas::Bool::Decides::nat_tests, crate::specs::At::head_is, crate::specs::At::kids_counted), unfolding(rules::specs::Facts::unchanged_template))]
    pub fn unchanged_template(self) -> bool
        ensures { result ≡ unchanged_template (tree self.entry) }
    {
        self.record.children() != 0 && self.record.text() == 0 && self.only_possible_symbols()
    }

    // Whether the test of a conditional or a logical counts as yes. As a call it would put copies of the node and of the settings into
    // each frame of List effects' recursion.
    #[inline(always)]
    pub fn test_is_yes(self, settings: Settings) -> bool
        ensures { result ≡ test_is_yes (given settings.entry) (tree self.entry) }
    {
        match self.children().next() {
            Some(test) => settings.counts_as_yes(test.record.place()),
            None => false,
        }
    }
}
