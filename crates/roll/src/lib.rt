// The roll of a chunk: its channels classified, and its colour triplets.
#![tactic(auto)]

mod checks;
mod classify;
mod refusal;
mod roll;

pub use classify::classify_channels;
pub use refusal::{Concerned, Refusal, Whom};
pub use roll::Roll;
