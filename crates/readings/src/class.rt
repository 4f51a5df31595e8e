// A class by its parts: what makes it an effect, what keeps it, and what its elements say.
ghost use Rattle.std.specs.Prelude.{◌≡◌, ◌+◌, IfSome, cond, drop, option_map, option_to_list, take};
ghost use Rattle.tree.specs.Tree.{size, trees};
ghost use Rattle.rules.specs.Lists.{any};
ghost use Rattle.rules.specs.Class.{arrow_heritage, computed_key, decorated_element, elements, flagged_static_value, heritage, kept_class, value_of};
ghost use Rattle.rules.specs.Effects.{class_is_effect};
ghost use Rattle.readings.specs.Class.{keeps_class};
ghost use Rattle.readings.specs.View.{left, tree};

use crate::alone;
use crate::node::{Node, Trees};
use fields::Kind;

impl<'a> Node<'a> {
    // Its first child, where that is one of its own, and the others.
    fn split_children(self, own: bool) -> (Option<Node<'a>>, Trees<'a>)
        ensures first { option_to_list (option_map tree result.0) ≡ take (cond own 1 0) (trees (tree self.entry).kids) }
        ensures others { left result.1 ≡ drop (cond own 1 0) (trees (tree self.entry).kids) }
        ensures source { (result.1.src.now ≡ self.entry.record.src.now) × IfSome result.0 (λ n. n.record.src.now ≡ self.entry.record.src.now) }
        ensures ends { result.1.end ≡ self.entry.record.at + size (tree self.entry) }
    {
        let mut children = self.children();
        let first = if own { children.next() } else { None };
        (first, children)
    }

    // Of a class.
    pub fn heritage_and_elements(self) -> (Option<Node<'a>>, Trees<'a>)
        ensures first { option_to_list (option_map tree result.0) ≡ heritage (tree self.entry) }
        ensures others { left result.1 ≡ elements (tree self.entry) }
        ensures source { (result.1.src.now ≡ self.entry.record.src.now) × IfSome result.0 (λ n. n.record.src.now ≡ self.entry.record.src.now) }
        ensures ends { result.1.end ≡ self.entry.record.at + size (tree self.entry) }
    {
        self.split_children(self.record.sub() / 2 % 2 == 1)
    }

    // Of a class element.
    pub fn key_and_value(self) -> (Option<Node<'a>>, Trees<'a>)
        ensures first { option_to_list (option_map tree result.0) ≡ computed_key (tree self.entry) }
        ensures others { left result.1 ≡ value_of (tree self.entry) (trees (tree self.entry).kids) }
        ensures source { (result.1.src.now ≡ self.entry.record.src.now) × IfSome result.0 (λ n. n.record.src.now ≡ self.entry.record.src.now) }
        ensures ends { result.1.end ≡ self.entry.record.at + size (tree self.entry) }
    {
        self.split_children(self.record.sub() / 16 % 2 == 1)
    }

    fn flagged_static_value(self) -> bool
        ensures { result ≡ flagged_static_value (tree self.entry) }
    {
        let (_, mut value) = self.key_and_value();
        alone::has_static_value(self.record) && value.any(|child| child.is_flagged())
    }

    // Whether an element keeps its class.
    #[tactic(auto, using(crate::specs::Alone::own), unfolding(crate::specs::Class::keeps_class))]
    fn keeps_class(self) -> bool
        ensures { result ≡ keeps_class (tree self.entry) }
    {
        alone::decorated_element(self.record)
            || alone::index_signature(self.record)
            || alone::nonempty_static_block(self.record)
            || self.flagged_static_value()
    }

    fn arrow_heritage(self) -> bool
        ensures { result ≡ arrow_heritage (tree self.entry) }
    {
        let (heritage, _) = self.heritage_and_elements();
        match heritage {
            Some(base) => base.last_expression_in_sequence().is_kind(Kind::Arrow),
            None => false,
        }
    }

    fn decorated_elements(self) -> bool
        ensures { result ≡ any decorated_element (elements (tree self.entry)) }
    {
        let (_, mut elements) = self.heritage_and_elements();
        elements.any(|element| alone::decorated_element(element.record))
    }

    #[tactic(auto, using(crate::specs::Alone::own), unfolding(rules::specs::Effects::class_is_effect))]
    pub fn class_is_effect(self) -> bool
        ensures { result ≡ class_is_effect (tree self.entry) }
    {
        alone::decorated_class(self.record) || self.decorated_elements() || self.arrow_heritage()
    }

    fn elements_keep_class(self) -> bool
        ensures { result ≡ any keeps_class (elements (tree self.entry)) }
    {
        let (_, mut elements) = self.heritage_and_elements();
        elements.any(|element| element.keeps_class())
    }

    // Whether the class is kept.
    #[tactic(auto, using(crate::specs::Alone::own, crate::specs::Class::kept_by_elements))]
    pub fn classify_class_removability(self) -> bool
        ensures { result ≡ kept_class (tree self.entry) }
    {
        alone::decorated_class(self.record) || self.elements_keep_class() || self.arrow_heritage()
    }
}
