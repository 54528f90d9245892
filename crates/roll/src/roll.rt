// The roll: what is kept of the channels, and the triplets. Its memory is obtained once; in the roll itself, as arrays, it would be some kilobytes on the stack.
ghost use Rattle.std.specs.Prelude.{◌≡◌, ◌≤◌, [], length, IfOk, vec_capacity};
ghost use Rattle.roll.specs.Kept.{Sides, Members, Apart};

use channel_rules::{ChannelInfo, KnownPrefix, Triplet};
use std::alloc::{AllocError, Global};

pub(crate) const MOST_CHANNELS: usize = 64;

#[derive(Drop)]
pub struct Roll {
    pub(crate) channels: Vec<ChannelInfo>,
    pub(crate) triplets: Vec<Triplet>,
    // Used while classifying, empty otherwise.
    pub(crate) prefix_map: Vec<KnownPrefix>,
    ghost room: { (64 ≤ vec_capacity channels) × (64 ≤ vec_capacity triplets) × (64 ≤ vec_capacity prefix_map) },
    ghost idle: { prefix_map.items ≡ [] },
    ghost few: { length channels.items ≤ 64 },
    ghost sides: { Sides channels.items },
    ghost members: { Members channels.items triplets.items },
    ghost apart: { Apart triplets.items },
}

impl Roll {
    // An empty roll with room for 64 channels and their triplets: what fills it later allocates nothing.
    pub fn new(heap: Global) -> Result<Roll, AllocError>
        ensures { IfOk result (λ roll. (roll.channels.items ≡ []) × (roll.triplets.items ≡ [])) }
    {
        let channels = Vec::with_capacity(heap, MOST_CHANNELS)?;
        let triplets = Vec::with_capacity(heap, MOST_CHANNELS)?;
        let prefix_map = Vec::with_capacity(heap, MOST_CHANNELS)?;
        Ok(Roll {
            channels,
            triplets,
            prefix_map,
        })
    }

    pub fn channels(&self) -> &[ChannelInfo]
        ensures { result.now ≡ self.now.channels.items }
    {
        self.channels.as_slice()
    }

    pub fn triplets(&self) -> &[Triplet]
        ensures { result.now ≡ self.now.triplets.items }
    {
        self.triplets.as_slice()
    }
}
