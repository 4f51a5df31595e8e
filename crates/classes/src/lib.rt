// `remove_unused_class`: what a class gives up where it is not kept.
#![tactic(auto)]

ghost use Rattle.std.specs.Prelude.{◌++◌, option_map, option_to_list};
ghost use Rattle.rules.specs.Class.{extracted, extracted_of_element};
ghost use Rattle.rules.specs.Facts.{flagged};
ghost use Rattle.rules.specs.Lists.{concat_map, filter};
ghost use Rattle.rules.specs.Made.{place_of};
ghost use Rattle.rules.specs.Reduce.{sequence_if_any};
ghost use Rattle.readings.specs.View.{left, tree};
ghost use Rattle.output.specs.Given.{GivenTree, GivenTrees};
ghost use Rattle.output.specs.Trees.{Wrote};
ghost use Rattle.classes.specs.Class.{GivenAtMostOne, GivenClass};

use readings::{Node, Trees};

// "a flagged heritage", "a flagged computed key", or none.
fn copy_if_flagged(node: Option<Node>, out: &mut [u8], pos: usize) -> usize
    requires { GivenAtMostOne node out.old pos }
    ensures { Wrote out.old out.new pos result (filter flagged (option_to_list (option_map tree node.entry))) }
{
    match node {
        Some(node) if node.is_flagged() => output::copy_node(node, out, pos),
        _ => pos,
    }
}

// "per element a flagged computed key, then any static value, none of them reduced"
fn extract_element(element: Node, out: &mut [u8], pos: usize) -> usize
    requires { GivenTree element out.old pos }
    ensures { Wrote out.old out.new pos result (extracted_of_element (tree element.entry)) }
{
    let (key, value) = element.key_and_value();
    let next = copy_if_flagged(key, out, pos);
    if readings::has_static_value(element.record) {
        output::copy_trees(value, out, next)
    } else {
        next
    }
}

fn extract_elements(elements: Trees, out: &mut [u8], pos: usize) -> usize
    requires { GivenTrees elements out.old pos }
    ensures { Wrote out.old out.new pos result (concat_map extracted_of_element (left elements.entry)) }
{
    let mut next = pos;
    for element in elements {
        next = extract_element(element, out, next);
    }
    next
}

// "None: removable. One or more: always a sequence."
pub fn remove_unused_class(node: Node, out: &mut [u8], pos: usize) -> usize
    requires { GivenClass node out.old pos }
    ensures { Wrote out.old out.new pos result (sequence_if_any (place_of (tree node.entry)) (extracted (tree node.entry))) }
{
    let (heritage, elements) = node.heritage_and_elements();
    let first = copy_if_flagged(heritage, out, pos + 1);
    let next = extract_elements(elements, out, first);
    rewrite::sequence_if_any(node.record, out, pos, next)
}
