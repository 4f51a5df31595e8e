// Records and trees written into a buffer: copies, moved trees, made records, and lists of trees read back.
#![tactic(auto)]

mod list;
mod record;

pub use list::{any_flagged, any_spread, count_trees};
pub use record::{
    Counts, MadeHead, copy_bytes, copy_node, copy_records, copy_tree, copy_trees, keep_at, make_at,
    move_down,
};
