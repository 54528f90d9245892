// What is asked of a roll: its units in order, and where its planes lie.
#![tactic(auto)]

mod blocks;
mod order;
mod planes;
mod shown;
mod unit;

pub use order::{unit_at, unit_count};
pub use planes::{plane_start, total_samples};
pub use unit::{Unit, UnitChannels};
