// The two columns of a tree file: its effects before and after Reduce, side by side, as text.
#![tactic(auto)]

mod limit;
mod line;
mod table;

ghost use Rattle.std.specs.Prelude.{◌≡◌, IfErr, IfOk, OnOk};
ghost use Rattle.refusal.specs.Number.{number_of};
ghost use Rattle.tree.specs.Layout.{version_in};
ghost use Rattle.tree.specs.Refusal.{program_limits, refusal};
ghost use Rattle.two_columns.specs.Columns.{columns};
ghost use Rattle.two_columns.specs.Kept.{GivenTable};

use arrayvec::ArrayString;
use refusal::Refusal;

// The text of any file fits: 48 bytes for each of fewer than 7,998 effects, the first line and the last.
pub const MOST_TEXT: usize = 384000;

pub type Text = ArrayString<MOST_TEXT>;

// Writes the text of the tree file src, or of its refusal, in place of what text holds.
#[tactic(auto, using(crate::specs::Run::columns_refused, crate::specs::Run::columns_accepted))]
pub fn write_columns(src: &[u8], text: &mut Text)
    ensures { text.new.bytes ≡ columns src.now }
{
    text.clear();
    let mut kept = [0u8; reducer::MOST_OUTPUT];
    match reduce(src, &mut kept) {
        Ok(left) => table::push_table(text, src, left),
        Err(refusal) => table::push_refusal(text, refusal),
    }
}

// What is left of the tree file src: a file, or nothing.
fn reduce<'a>(src: &[u8], kept: &'a mut [u8; reducer::MOST_OUTPUT]) -> Result<&'a [u8], Refusal>
    ensures given { IfOk result (λ left. GivenTable src.now left.now) }
    ensures accepted { OnOk result (refusal (program_limits (version_in src.now)) src.now ≡ 0) }
    ensures number { IfErr result (λ r. number_of r ≡ refusal (program_limits (version_in src.now)) src.now) }
{
    limit::check_count(src)?;
    let length = reducer::reduce(src, kept)?.unwrap_or(0);
    Ok(&kept[..length])
}
