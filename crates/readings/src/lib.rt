// What a record says of the tree that stands there, as reducing and listing ask it.
#![tactic(auto)]

mod alone;
mod calls;
mod class;
mod lists;
pub mod node;
mod sequence;
pub mod settings;
mod symbol;
mod walk;

pub use alone::{flagged, has_static_value, nonempty_static_block, possible_symbol_if, pure_new};
pub use node::{Node, Trees};
pub use settings::Settings;
