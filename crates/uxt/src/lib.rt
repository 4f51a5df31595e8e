// The C functions. include/uxt.h declares them.
#![tactic(auto)]

ghost use Rattle.std.specs.Prelude.{◌≡◌, ◌*◌, [], MatchResult};
ghost use Rattle.refusal.specs.Number.{number_of};
ghost use Rattle.tree.specs.Refusal.{reduce_limits, refusal};
ghost use Rattle.derived.specs.Answer.{derived_question};
ghost use Rattle.uxt.specs.Packed.{plain, PackedListing, PackedReduction};

use file::Limits;
use refusal::Refusal;

// A refusal's number stands above the 32 bits of a value.
const NUMBER: u64 = 4294967296;

// The value, or the number of the refusal above its 32 bits.
fn packed(answer: Result<usize, Refusal>) -> u64
    ensures { MatchResult answer (λ v. result ≡ v) (λ r. result ≡ number_of r * 4294967296) }
{
    match answer {
        Ok(value) => value as u64,
        Err(refusal) => u64::from(refusal.number()) * NUMBER,
    }
}

// The value, or the number of the refusal.
fn plain(answer: Result<u64, Refusal>) -> u64
    ensures { MatchResult answer (λ v. result ≡ v) (λ r. result ≡ number_of r) }
{
    answer.unwrap_or_else(|refusal| u64::from(refusal.number()))
}

// The number that Reduce would refuse the tree file src with, room apart; 0 where it would take it.
#[tactic(auto, using(file::specs::Answer::checked_number))]
#[unsafe(no_mangle)]
pub extern "C" fn uxt_check(src: &[u8]) -> u64
    ensures { result ≡ refusal reduce_limits src.now }
{
    plain(file::check(src, Limits::REDUCE).map(|_| 0))
}

// Reduces the tree file src into out: the value is the length of the rewritten file, 0 where nothing is left.
#[unsafe(no_mangle)]
pub extern "C" fn uxt_reduce(src: &[u8], out: &mut [u8]) -> u64
    ensures { PackedReduction src.now out.old out.new result }
{
    packed(reducer::reduce(src, out).map(|left| left.unwrap_or(0)))
}

// Lists the effects of the tree file src in entries: the value is their count.
#[unsafe(no_mangle)]
pub extern "C" fn uxt_list_effects(src: &[u8], entries: &mut [u64]) -> u64
    ensures { PackedListing [] src.now entries.old entries.new result }
{
    packed(effects::list_effects(src, entries))
}

// The same, where the tests at the places of yes count as yes.
#[unsafe(no_mangle)]
pub extern "C" fn uxt_list_effects_given(src: &[u8], yes: &[u32], entries: &mut [u64]) -> u64
    ensures { PackedListing yes.now src.now entries.old entries.new result }
{
    packed(effects::list_effects_given(src, yes, entries))
}

// The Derived question: 0 for no, 1 for yes, or the refusal's number.
#[unsafe(no_mangle)]
pub extern "C" fn uxt_derived(scopes: &[u8], ancestors: &[u8]) -> u64
    ensures { result ≡ plain (derived_question scopes.now ancestors.now) }
{
    plain(derived::derived_constructor_this_scope(scopes, ancestors).map(u64::from))
}
