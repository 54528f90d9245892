// The rules of a chunk, and what they give: each channel's scheme, and the channels that hold the slots of a prefix.
#![tactic(auto)]

mod listing;
mod matching;
mod names;
mod prefix_map;
mod records;
mod shown;
mod slot;
mod sound;

pub use listing::{Listed, list_channels, list_triplets};
pub use prefix_map::{KnownPrefix, Slots};
pub use records::{
    ChannelDescription, ChannelInfo, Chunk, CompressorScheme, IntegerBounds, Part, Rule,
    SampleType, Triplet,
};
pub use slot::{NotASlot, Slot};
pub use sound::SoundChunk;
