// The effect list of trees, as it is written: an expression lists its children, and a list of children each expression.
// Remaining depth falls at each call that goes down; siblings are walked by a loop, so that the stack is bounded by the depth.
ghost use Rattle.std.specs.Prelude.{◌≡◌, ◌++◌, true, false, option_map, option_to_list};
ghost use Rattle.tree.specs.Tree.{All};
ghost use Rattle.tree.specs.Symbol.{is_addition, is_string};
ghost use Rattle.rules.specs.Lists.{concat_map};
ghost use Rattle.rules.specs.Effects.{coercion, effects, effects_of, evaluate};
ghost use Rattle.readings.specs.Given.{given};
ghost use Rattle.readings.specs.View.{left, tree};
ghost use Rattle.effects.specs.Listing.{HasRoom, Listable, Listed, tested};
ghost use Rattle.effects.specs.Plan.{is_passed, planned};

use crate::entry::Effect;
use crate::plan;
use crate::plan::Plan;
use readings::{Node, Settings, Trees};

// What the list goes by, the entries that are lent for it, and how many of them are written.
#[derive(Drop)]
pub struct Listing<'a> {
    pub settings: Settings<'a>,
    pub entries: &'a mut [u64],
    pub count: usize,
}

impl Listing<'_> {
    // The trees of a list, in order. The walk goes into a node that is passed without a call.
    #[cycle(listing)]
    pub fn list_children(&mut self, list: Trees, depth: usize)
        requires listable { All (Listable depth) (left list) }
        requires room { HasRoom self.old (effects_of (given self.old.settings) (left list)) }
        ensures { Listed self.old self.new (effects_of (given self.old.settings) (left list.entry)) }
    {
        let mut walk = list;
        while let Some(node) = walk.first() {
            if plan::is_passed(node.record) {
                let itself = plan::passed_itself(node.record, self.settings);
                self.list_if(node.record, itself, Effect::Itself);
                walk.enter();
            } else {
                walk.next();
                self.list_expr(node, depth);
            }
        }
    }

    // Each tree of a list, followed by its coercion.
    #[cycle(listing)]
    fn list_coerced(&mut self, list: Trees, depth: usize)
        requires listable { All (Listable depth) (left list) }
        requires room { HasRoom self.old (concat_map (λ c. effects (given self.old.settings) c ++ coercion c) (left list)) }
        ensures { Listed self.old self.new (concat_map (λ c. effects (given self.old.settings) c ++ coercion c) (left list.entry)) }
    {
        for node in list {
            let string = self.list_side(node, depth);
            self.list_coercion(node, string);
        }
    }

    // The computed keys of class elements.
    #[cycle(listing)]
    fn list_keys(&mut self, elements: Trees, depth: usize)
        requires listable { All (Listable depth) (left elements) }
        requires room { HasRoom self.old (concat_map (λ e. (evaluate (given self.old.settings) e).key) (left elements)) }
        ensures { Listed self.old self.new (concat_map (λ e. (evaluate (given self.old.settings) e).key) (left elements.entry)) }
    {
        for element in elements {
            let (key, _) = element.key_and_value();
            self.list_any(key, depth - 1);
        }
    }

    // Their static values and blocks.
    #[cycle(listing)]
    fn list_statics(&mut self, elements: Trees, depth: usize)
        requires listable { All (Listable depth) (left elements) }
        requires room { HasRoom self.old (concat_map (λ e. (evaluate (given self.old.settings) e).static) (left elements)) }
        ensures { Listed self.old self.new (concat_map (λ e. (evaluate (given self.old.settings) e).static) (left elements.entry)) }
    {
        for element in elements {
            self.list_static(element, depth);
        }
    }

    // The static value of a class element, or its block.
    #[tactic(auto, using(readings::specs::Alone::own, crate::specs::Entry::own, crate::specs::Listing::steps, rules::proofs::Effects::static_is))]
    #[cycle(listing)]
    fn list_static(&mut self, node: Node, depth: usize)
        requires listable { Listable depth (tree node) }
        requires room { HasRoom self.old ((evaluate (given self.old.settings) (tree node)).static) }
        ensures { Listed self.old self.new ((evaluate (given self.old.settings) (tree node.entry)).static) }
    {
        if readings::has_static_value(node.record) {
            let (_, value) = node.key_and_value();
            self.list_children(value, depth - 1);
        }
        let block = readings::nonempty_static_block(node.record);
        self.list_if(node.record, block, Effect::Itself);
    }

    // A tree, if there is one.
    #[cycle(listing)]
    fn list_any(&mut self, node: Option<Node>, depth: usize)
        requires listable { All (Listable depth) (option_to_list (option_map tree node)) }
        requires room { HasRoom self.old (effects_of (given self.old.settings) (option_to_list (option_map tree node))) }
        ensures { Listed self.old self.new (effects_of (given self.old.settings) (option_to_list (option_map tree node.entry))) }
    {
        if let Some(tree) = node {
            self.list_children(tree.alone(), depth);
        }
    }

    // An expression that is not passed, by its plan.
    #[tactic(auto, using(crate::specs::Entry::own, crate::specs::Listing::steps, crate::specs::Plan::planned_as, crate::specs::Plan::plan_addition))]
    #[cycle(listing)]
    fn list_expr(&mut self, node: Node, depth: usize)
        requires inner { is_passed (tree node).head.kind ≡ false }
        requires listable { Listable depth (tree node) }
        requires room { HasRoom self.old (effects (given self.old.settings) (tree node)) }
        ensures { Listed self.old self.new (effects (given self.old.settings) (tree node.entry)) }
    {
        let below = depth - 1;
        let mut children = node.children();
        match plan::plan_of(node, self.settings) {
            Plan::Nothing => {}
            Plan::Children(when) => {
                self.list_children(children, below);
                self.list_if(node.record, when, Effect::Itself);
            }
            Plan::Coerced => self.list_coerced(children, below),
            Plan::Arguments => {
                children.next();
                self.list_children(children, below);
            }
            Plan::Test => self.list_any(children.next(), below),
            Plan::Arm(when) => self.list_arm(children, when, below),
            Plan::Addition => {
                self.list_addition(node, depth);
            }
            Plan::Class => self.list_class(node, depth),
        }
    }

    // Of the children of a conditional: the test, and then the consequent if the test counts as yes, or the alternate.
    #[tactic(auto, using(crate::specs::Listing::steps, rules::proofs::Lists::all_take, rules::proofs::Lists::all_drop))]
    #[cycle(listing)]
    fn list_arm(&mut self, list: Trees, when: bool, depth: usize)
        requires listable { All (Listable depth) (left list) }
        requires room { HasRoom self.old (tested when (given self.old.settings) (left list)) }
        ensures { Listed self.old self.new (tested when (given self.old.settings) (left list.entry)) }
    {
        let mut children = list;
        let test = children.next();
        self.list_any(test, depth);
        let consequent = children.next();
        if when {
            self.list_any(consequent, depth);
        } else {
            self.list_children(children, depth);
        }
    }

    // A side of an addition, or a template's child. The value is whether it is a string.
    #[tactic(auto, using(readings::specs::Alone::own, tree::specs::Symbol::is_string_other))]
    #[cycle(listing)]
    fn list_side(&mut self, node: Node, depth: usize) -> bool
        requires listable { Listable depth (tree node) }
        requires room { HasRoom self.old (effects (given self.old.settings) (tree node)) }
        ensures listed { Listed self.old self.new (effects (given self.old.settings) (tree node.entry)) }
        ensures string { result ≡ is_string (tree node.entry) }
    {
        if node.record.is_addition() {
            return self.list_addition(node, depth);
        }
        self.list_children(node.alone(), depth);
        node.record.has_string_fact()
    }

    // An addition. The value is whether it is a string.
    #[cycle(listing)]
    fn list_addition(&mut self, node: Node, depth: usize) -> bool
        requires addition { is_addition (tree node) ≡ true }
        requires listable { Listable depth (tree node) }
        requires room { HasRoom self.old (effects (given self.old.settings) (tree node)) }
        ensures listed { Listed self.old self.new (effects (given self.old.settings) (tree node.entry)) }
        ensures string { result ≡ is_string (tree node.entry) }
    {
        let (left, right) = node.first_two().unwrap();
        let first = self.list_side(left, depth - 1);
        let second = self.list_side(right, depth - 1);
        if first {
            self.list_coercion(right, second);
            return true;
        }
        if right.record.has_string_fact() {
            self.list_coercion(left, first);
            return true;
        }
        self.list_if(node.record, node.is_flagged(), Effect::Itself);
        false
    }

    // Heritage, the class itself, all computed keys, then static values and blocks.
    #[cycle(listing)]
    fn list_class(&mut self, node: Node, depth: usize)
        requires listable { Listable depth (tree node) }
        requires room { HasRoom self.old (planned Plan.Class (given self.old.settings) (tree node)) }
        ensures { Listed self.old self.new (planned Plan.Class (given self.old.settings) (tree node.entry)) }
    {
        let below = depth - 1;
        let (heritage, elements) = node.heritage_and_elements();
        self.list_any(heritage, below);
        self.list_if(node.record, node.class_is_effect(), Effect::Itself);
        self.list_keys(elements, below);
        self.list_statics(elements, below);
    }
}
