// One entry of the list.
ghost use Rattle.std.specs.Prelude.{◌≡◌};
ghost use Rattle.tree.specs.Symbol.{is_string};
ghost use Rattle.fields.specs.Record.{node};
ghost use Rattle.rules.specs.Lists.{keep_if};
ghost use Rattle.rules.specs.Effects.{coercion};
ghost use Rattle.readings.specs.View.{tree};
ghost use Rattle.effects.specs.Entry.{effect_of};
ghost use Rattle.effects.specs.Listing.{HasRoom, Listed};

use crate::listing::Listing;
use fields::Record;
use readings::Node;

#[derive(Clone, Copy)]
pub enum Effect {
    // the node itself
    Itself,
    // its coercion
    Coercion,
}

// "An effect is place × 512 + kind × 2 + 1 if a coercion"
#[tactic(auto, unfolding(crate::specs::Entry::effect_of, rules::specs::Effects::itself, rules::specs::Effects::coercion_number))]
fn number(root: Record, effect: Effect) -> u64
    ensures { result ≡ effect_of effect (node root.entry) }
{
    let coercion = match effect {
        Effect::Itself => 0,
        Effect::Coercion => 1,
    };
    u64::from(root.place().start) * 512 + u64::from(root.kind()) * 2 + coercion
}

impl Listing<'_> {
    // Lists the node of a record, or its coercion, where `when` says so. The entry is written either way, and the one where the list goes
    // on then gets back what it held: a branch would often be mispredicted.
    pub fn list_if(&mut self, root: Record, when: bool, effect: Effect)
        requires { HasRoom self.old (keep_if when (effect_of effect (node root))) }
        ensures { Listed self.old self.new (keep_if when (effect_of effect (node root.entry))) }
    {
        let next = if when { self.count + 1 } else { self.count };
        let held = self.entries[next];
        self.entries[self.count] = number(root, effect);
        self.entries[next] = held;
        self.count = next;
    }

    // Lists the coercion of a node that is a string, or is none, where it is a possible symbol.
    #[tactic(auto, using(crate::specs::Sum::coerced, crate::specs::Entry::own), unfolding(readings::specs::At::tree_at))]
    pub fn list_coercion(&mut self, node: Node, string: bool)
        requires string { string ≡ is_string (tree node) }
        requires room { HasRoom self.old (coercion (tree node)) }
        ensures { Listed self.old self.new (coercion (tree node.entry)) }
    {
        let symbol = readings::possible_symbol_if(node.record, string);
        self.list_if(node.record, symbol, Effect::Coercion);
    }
}
