// The records of a tree file, and their fields.
#![tactic(auto)]

pub mod kind;
pub mod offset;
pub mod record;

ghost use Rattle.std.specs.Prelude.{◌≡◌, ◌<◌, ◌≤◌, length};
ghost use Rattle.tree.specs.Layout.{version_by, version_in, header_bytes, width, start_in};

pub use kind::{Kind, UnknownKind};
pub use record::Record;

// How many bytes stand before the records.
pub const HEADER_BYTES: usize = 8;

// What a made node copies from the node that gives it its place; as a definition: specs/Place.antt.
#[derive(Clone, Copy)]
pub struct Place {
    pub start: u32,
    pub end: u32,
}

// Whether the records of src have an end, as those of version 2 do.
#[tactic(auto, unfolding(tree::specs::Layout::version_in))]
pub fn has_ends(src: &[u8]) -> bool
    requires { header_bytes ≤ length src.now }
    ensures { version_in src.now ≡ version_by result }
{
    src[3] == 2
}

// How many bytes a record of src has.
#[tactic(auto, unfolding(tree::specs::Layout::width))]
pub fn width_of(src: &[u8]) -> usize
    requires { header_bytes ≤ length src.now }
    ensures { result ≡ width (version_in src.now) }
{
    if has_ends(src) { 20 } else { 16 }
}

// How long a file of n records is, each as wide as those of src.
#[tactic(auto, unfolding(tree::specs::Layout::start, tree::specs::Layout::span))]
pub fn file_length(src: &[u8], n: usize) -> usize
    requires { (header_bytes ≤ length src.now) × (start_in src.now n < 18446744073709551616) }
    ensures { result ≡ start_in src.now n }
{
    HEADER_BYTES + width_of(src) * n
}
