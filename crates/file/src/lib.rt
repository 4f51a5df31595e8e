// The check of a tree file: refusals 1 to 8, in order, with 5 again and 17 after 7.
#![tactic(auto)]

mod children;
mod depth;
mod ends;
mod kinds;
mod record;
mod symbols;

ghost use Rattle.std.specs.Prelude.{◌≡◌, ◌<◌, ◌≤◌, length, MatchResult};
ghost use Rattle.tree.specs.Layout.{header_bytes};
ghost use Rattle.tree.specs.Refusal.{mark_ok, version_ok, count_ok};
ghost use Rattle.tree.specs.Fields.{settings_of, count_of};
ghost use Rattle.file.specs.Answer.{limits_of, stated, checked, accepted_with, refused_by};
ghost use Rattle.file.specs.Run.{Headed};
ghost use Rattle.refusal.specs.Number.{number_of};

use refusal::Refusal;

// How many records and levels an operation takes, and whether logical nodes.
#[derive(Clone, Copy)]
pub struct Limits {
    pub records: usize,
    pub depth: usize,
    pub logicals: bool,
}

// As definitions: `reduce_limits` and `list_effects_limits`.
impl Limits {
    pub const REDUCE: Limits = Limits {
        records: 2000,
        depth: 64,
        logicals: false,
    };

    pub const LIST_EFFECTS: Limits = Limits {
        records: 3999,
        depth: 65,
        logicals: true,
    };
}

// What the header of an accepted file says: the settings byte and the record count.
#[derive(Clone, Copy)]
pub struct Accepted {
    pub settings: u8,
    pub count: usize,
}

#[tactic(auto, using(std::proofs::lemmas::Bool::Decides::nat_tests), unfolding(tree::specs::Refusal::mark_ok))]
fn mark_ok(src: &[u8]) -> bool
    ensures { result ≡ mark_ok src.now }
{
    fields::HEADER_BYTES <= src.len() && src.starts_with(b"UXT")
}

#[tactic(auto, using(std::proofs::lemmas::Bool::Decides::nat_tests), unfolding(tree::specs::Refusal::version_ok))]
fn version_ok(src: &[u8]) -> bool
    requires { header_bytes ≤ length src.now }
    ensures { result ≡ version_ok src.now }
{
    matches!(le::get16(src, 3), 1 | 2)
}

#[tactic(auto, using(std::proofs::lemmas::Bool::Decides::nat_tests, tree::specs::Room::start_small), unfolding(tree::specs::Refusal::count_ok))]
fn count_ok(src: &[u8], n: usize, most: usize) -> bool
    requires { (n ≡ count_of src.now) × (n < 65536) × (header_bytes ≤ length src.now) }
    ensures { result ≡ count_ok most src.now }
{
    1 <= n && n <= most && src.len() == fields::file_length(src, n)
}

// Refusals 1 to 4.
#[tactic(auto, using(crate::specs::Run::refused_1, crate::specs::Run::refused_2, crate::specs::Run::refused_3, crate::specs::Run::refused_4, tree::proofs::Accepted::mark_long, std::proofs::lemmas::Bool::Decides::nat_tests), unfolding(tree::specs::Refusal::settings_ok))]
fn check_header(src: &[u8], limits: Limits) -> Result<Accepted, Refusal>
    ensures { MatchResult result
        (λ a. Headed (limits_of limits) src.now a.count × (a.settings ≡ settings_of src.now))
        (λ r. refused_by (number_of r) ≡ checked (limits_of limits) src.now) }
{
    if !mark_ok(src) {
        return Err(Refusal::Mark);
    }
    if !version_ok(src) {
        return Err(Refusal::Version);
    }
    let settings = src[5];
    if 8 <= settings {
        return Err(Refusal::Settings);
    }
    let count = usize::from(le::get16(src, 6));
    if !count_ok(src, count, limits.records) {
        return Err(Refusal::Count);
    }
    Ok(Accepted { settings, count })
}

// Refusals 5 to 8 and 17, once the header has passed.
fn check_records(src: &[u8], limits: Limits, count: usize) -> Result<(), Refusal>
    requires { Headed (limits_of limits) src.now count }
    ensures { MatchResult result
        (λ _. accepted_with (settings_of src.now) count ≡ checked (limits_of limits) src.now)
        (λ r. refused_by (number_of r) ≡ checked (limits_of limits) src.now) }
{
    if !record::records_ok(src, count) {
        return Err(Refusal::Record);
    }
    if !record::all_taken(src, count, limits.logicals) {
        return Err(Refusal::Kind);
    }
    if !children::shape_ok(src, count) {
        return Err(Refusal::Shape);
    }
    if !symbols::additions_ok(src, count) {
        return Err(Refusal::Record);
    }
    if !ends::ends_ok(src, count) {
        return Err(Refusal::End);
    }
    if !depth::levels_ok(src, 0, count, limits.depth) {
        return Err(Refusal::Depth);
    }
    Ok(())
}

// Whether src is a tree file within the limits; an error is the first refusal that applies.
pub fn check(src: &[u8], limits: Limits) -> Result<Accepted, Refusal>
    ensures { stated result ≡ checked (limits_of limits) src.now }
{
    let header = check_header(src, limits)?;
    check_records(src, limits, header.count)?;
    Ok(header)
}
