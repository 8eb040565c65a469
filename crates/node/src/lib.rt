// One node of sixteen words: its slot word, its entries, whether it is sound, and where a key stands in it.
#![tactic(auto)]

pub mod bytes;
pub mod cover;
pub mod layout;
pub mod look;
pub mod marks;
pub mod slot;

pub use cover::{Cover, Look};
pub use layout::Node;
