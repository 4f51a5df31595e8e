// A line for each effect of the longer of two lists.
ghost use Rattle.std.specs.Prelude.{◌≡◌, ◌+◌, ◌*◌, ◌≤◌, ◌++◌, max, length, option_to_list};
ghost use Rattle.arrayvec.specs.ArrayString.{array_string_len};
ghost use Rattle.two_columns.specs.Columns.{column, cell, line, side_by_side};

use crate::{MOST_TEXT, Text};
use text::push_decimal;

// place/kind/coercion
#[tactic(auto, using(crate::specs::Lines::place_few, crate::specs::Lines::kind_few, crate::specs::Lines::coercion_few), unfolding(crate::specs::Columns::column))]
fn push_effect(text: &mut Text, effect: u64)
    requires { array_string_len text.old + 23 ≤ MOST_TEXT }
    ensures bytes { text.new.bytes ≡ text.old.bytes ++ column effect }
    ensures short { array_string_len text.new ≤ array_string_len text.old + 23 }
{
    push_decimal(text, effect / 512);
    text.push_str("/");
    push_decimal(text, effect / 2 % 256);
    text.push_str("/");
    push_decimal(text, effect % 2);
}

// An effect of a list, or that the list has ended.
fn push_cell(text: &mut Text, effect: Option<u64>)
    requires { array_string_len text.old + 23 ≤ MOST_TEXT }
    ensures bytes { text.new.bytes ≡ text.old.bytes ++ cell (option_to_list effect) }
    ensures short { array_string_len text.new ≤ array_string_len text.old + 23 }
{
    match effect {
        Some(effect) => push_effect(text, effect),
        None => text.push_str("-"),
    }
}

#[tactic(auto, unfolding(crate::specs::Columns::line))]
fn push_line(text: &mut Text, before: Option<u64>, after: Option<u64>)
    requires { array_string_len text.old + 48 ≤ MOST_TEXT }
    ensures bytes { text.new.bytes ≡ text.old.bytes ++ line (option_to_list before) (option_to_list after) }
    ensures short { array_string_len text.new ≤ array_string_len text.old + 48 }
{
    push_cell(text, before);
    text.push_str(" ");
    push_cell(text, after);
    text.push_str("\n");
}

#[tactic(auto, using(crate::specs::Lines::lined_none, crate::specs::Lines::lined_more, crate::specs::Lines::lined_all))]
pub fn push_lines(text: &mut Text, before: &[u64], after: &[u64])
    requires { array_string_len text.old + 48 * max (length before.now) (length after.now) ≤ MOST_TEXT }
    ensures bytes { text.new.bytes ≡ text.old.bytes ++ side_by_side before.now after.now }
    ensures short { array_string_len text.new ≤ array_string_len text.old + 48 * max (length before.now) (length after.now) }
{
    for i in 0..before.len().max(after.len()) {
        push_line(text, before.get(i).copied(), after.get(i).copied());
    }
}
