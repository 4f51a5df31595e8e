// List effects: the effect list of a tree file, in ECMA-262's order.
#![tactic(auto)]

mod entry;
mod listing;
mod plan;

ghost use Rattle.effects.specs.Answer.{AnswersGiven, Answers};

use crate::listing::Listing;
use file::{Accepted, Limits};
use readings::{Settings, Trees};
use refusal::Refusal;

// Lists the effects of the tree file src in entries, where the tests at the places of yes count as yes and all others as no. The value is
// how many there are: the first entries are the list, and no other entry has changed. An error is the first refusal that applies, and
// no entry has changed then.
pub fn list_effects_given(src: &[u8], yes: &[u32], entries: &mut [u64]) -> Result<usize, Refusal>
    ensures { AnswersGiven yes.now src.now entries.old entries.new result }
{
    let limits = Limits::LIST_EFFECTS;
    let Accepted { settings, count } = file::check(src, limits)?;
    if entries.len() < 2 * count {
        return Err(Refusal::Entries);
    }
    let settings = Settings {
        byte: settings,
        yes,
    };
    let root = Trees {
        src,
        at: 0,
        end: count,
    };
    let mut listing = Listing {
        settings,
        entries,
        count: 0,
    };
    listing.list_children(root, limits.depth);
    Ok(listing.count)
}

// Lists the effects of the tree file src in entries; no place counts as yes.
pub fn list_effects(src: &[u8], entries: &mut [u64]) -> Result<usize, Refusal>
    ensures { Answers src.now entries.old entries.new result }
{
    list_effects_given(src, &[], entries)
}
