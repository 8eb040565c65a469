// The calls on one pool, a module each.
#![tactic(auto)]

mod checking;
mod crowded;
mod deleting;
mod fetching;
mod formatting;
mod gate;
mod most;
mod putting;
mod recovering;
mod serving;

pub use checking::check;
pub use deleting::delete;
pub use fetching::fetch;
pub use formatting::format;
pub use most::Splits;
pub use putting::put;
pub use recovering::recover;
pub use serving::serve;
