// The argument of a typeof, the callee of a call, whether a call is pure, and whether an impure call stays.
ghost use Rattle.std.specs.Prelude.{◌≡◌};
ghost use Rattle.fields.specs.Kind.{number_of};
ghost use Rattle.rules.specs.Facts.{has_side_effects_or_preserved_iife, of_identifier, preserved_iife, pure_call, pure_new};
ghost use Rattle.rules.specs.Handler.{first_is, is_kind};
ghost use Rattle.readings.specs.Given.{given};
ghost use Rattle.readings.specs.View.{tree};

use crate::alone;
use crate::node::Node;
use crate::settings::Settings;
use fields::Kind;

impl Node<'_> {
    // Whether the argument of a unary, or the callee of a call or new, has this kind.
    pub fn first_is(self, kind: Kind) -> bool
        ensures { result ≡ first_is (is_kind (number_of kind)) (tree self.entry) }
    {
        match self.children().next() {
            Some(first) => first.is_kind(kind),
            None => false,
        }
    }

    #[tactic(auto, unfolding(rules::specs::Facts::of_identifier))]
    pub fn of_identifier(self) -> bool
        ensures { result ≡ of_identifier (tree self.entry) }
    {
        self.first_is(Kind::Identifier)
    }

    // Whether tree-shake-only keeps a call, whatever else is said of it.
    #[tactic(auto, using(crate::specs::Firsts::first_or), unfolding(rules::specs::Facts::preserved_iife))]
    pub fn preserved_iife(self, settings: Settings) -> bool
        ensures { result ≡ preserved_iife (given settings.entry) (tree self.entry) }
    {
        settings.tree_shake_only() && (self.first_is(Kind::Function) || self.first_is(Kind::Arrow))
    }

    #[tactic(auto, using(crate::specs::Alone::own))]
    pub fn pure_new(self, settings: Settings) -> bool
        ensures { result ≡ pure_new (given settings.entry) (tree self.entry) }
    {
        alone::pure_new(self.record, settings)
    }

    #[tactic(auto, using(crate::specs::Alone::own), unfolding(rules::specs::Facts::pure_call, rules::specs::Facts::pure_call_by01))]
    pub fn pure_call(self, settings: Settings) -> bool
        ensures { result ≡ pure_call (given settings.entry) (tree self.entry) }
    {
        !self.preserved_iife(settings)
            && (self.pure_new(settings)
                || self.first_is(Kind::Identifier) && alone::summary_free(self.record))
    }

    #[tactic(auto, unfolding(rules::specs::Facts::has_side_effects_or_preserved_iife))]
    pub fn has_side_effects_or_preserved_iife(self, settings: Settings) -> bool
        ensures { result ≡ has_side_effects_or_preserved_iife (given settings.entry) (tree self.entry) }
    {
        self.is_flagged() || self.preserved_iife(settings)
    }
}
