// What is printed of an accepted file, and of a refused one.
ghost use Rattle.std.specs.Prelude.{◌≡◌, ◌+◌, ◌≤◌, ◌++◌, [], length};
ghost use Rattle.arrayvec.specs.ArrayString.{array_string_len};
ghost use Rattle.refusal.specs.Number.{number_of};
ghost use Rattle.two_columns.specs.Columns.{records_line, refused_line, table};
ghost use Rattle.two_columns.specs.Kept.{effects_of, records_of, GivenList, GivenTable};

use crate::{MOST_TEXT, Text, line};
use refusal::Refusal;
use text::push_decimal;

#[tactic(auto, using(crate::specs::Lines::number_few), unfolding(crate::specs::Columns::refused_line))]
pub fn push_refusal(text: &mut Text, refusal: Refusal)
    requires { array_string_len text.old + 29 ≤ MOST_TEXT }
    ensures { text.new.bytes ≡ text.old.bytes ++ refused_line (number_of refusal) }
{
    text.push_str("refused ");
    push_decimal(text, u64::from(refusal.number()));
    text.push_str("\n");
}

// The accepted file src, and what is left of it: a file, or nothing.
#[tactic(auto, using(crate::specs::Kept::file_taken, crate::specs::Kept::given_kept))]
pub fn push_table(text: &mut Text, src: &[u8], left: &[u8])
    requires empty { text.old.bytes ≡ [] }
    requires given { GivenTable src.now left.now }
    ensures { text.new.bytes ≡ table src.now }
{
    let mut before = [0u64; 4000];
    let mut after = [0u64; 7998];
    let before = list_file(src, &mut before);
    let after = list_file(left, &mut after);
    text.push_str("before after\n");
    line::push_lines(text, before, after);
    push_records(text, records(src), records(left));
}

// The effects of a file that List effects accepts; none where nothing is left, which it refuses.
#[tactic(auto, using(crate::specs::Kept::listed_list))]
fn list_file<'a>(file: &[u8], entries: &'a mut [u64]) -> &'a [u64]
    requires { GivenList file.now (length entries.old) }
    ensures list { result.now ≡ effects_of file.now }
    ensures fits { length result.now ≤ length entries.old }
{
    let count = effects::list_effects(file, entries).unwrap_or(0);
    &entries[..count]
}

// The record count of a file; none where nothing is left.
#[tactic(auto, unfolding(crate::specs::Kept::records_of))]
fn records(file: &[u8]) -> u16
    ensures { result ≡ records_of file.now }
{
    if file.len() < fields::HEADER_BYTES {
        return 0;
    }
    le::get16(file, 6)
}

#[tactic(auto, using(crate::specs::Lines::number_few), unfolding(crate::specs::Columns::records_line))]
fn push_records(text: &mut Text, n: u16, m: u16)
    requires { array_string_len text.old + 50 ≤ MOST_TEXT }
    ensures { text.new.bytes ≡ text.old.bytes ++ records_line n m }
{
    text.push_str("records ");
    push_decimal(text, u64::from(n));
    text.push_str(" ");
    push_decimal(text, u64::from(m));
    text.push_str("\n");
}
