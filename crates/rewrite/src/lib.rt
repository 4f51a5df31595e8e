// What takes a node's place: the trees that are left of its children, made into one.
#![tactic(auto)]

mod arms;
mod close;
mod join;
mod made;
mod waiting;

pub use arms::join_arms;
pub use close::{
    none_one_several, remove_unused_array_expr, remove_unused_sequence_expr, sequence_if_any,
};
pub use join::join_kept;
pub use waiting::{Waiting, flush_object, flush_template, hold, wrap_spread};
