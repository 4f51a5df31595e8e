// What a reduction or a listing is told besides the tree.
ghost use Rattle.std.specs.Prelude.{◌≡◌};
ghost use Rattle.rules.specs.Settings as rules;

// The settings byte of the file, and the places that count as yes; reducing has none.
#[derive(Clone, Copy)]
pub struct Settings<'a> {
    pub byte: u8,
    pub yes: &'a [u32],
}

impl Settings<'_> {
    ghost use Rattle.readings.specs.Given.{given};
    ghost use Rattle.tree.specs.Tree as tree;
    ghost use Rattle.fields.specs.Place.{as_place};

    #[tactic(auto, unfolding(rules::specs::Settings::annotations))]
    pub fn annotations(self) -> bool
        ensures { result ≡ rules.annotations (given self.entry) }
    {
        self.byte % 2 == 1
    }

    #[tactic(auto, unfolding(rules::specs::Settings::tree_shake_only))]
    pub fn tree_shake_only(self) -> bool
        ensures { result ≡ rules.tree_shake_only (given self.entry) }
    {
        self.byte / 2 % 2 == 1
    }

    #[tactic(auto, unfolding(rules::specs::Settings::derived))]
    pub fn derived(self) -> bool
        ensures { result ≡ rules.derived (given self.entry) }
    {
        self.byte / 4 % 2 == 1
    }

    // Whether a test that stands at a place counts as yes.
    #[tactic(auto, unfolding(rules::specs::Settings::counts_as_yes))]
    pub fn counts_as_yes(self, test: fields::Place) -> bool
        ensures { result ≡ rules.counts_as_yes (given self.entry) (as_place test) }
    {
        self.yes.contains(&test.start)
    }
}
