// The two lists that a roll holds: its channels and its triplets.
ghost use Rattle.std.specs.Prelude.{◌≡◌, ℕ, ◌<◌, ◌≤◌, [], map, length, vec_len, vec_capacity, slice_index_or};
ghost use Rattle.channel_rules.specs.Triplets.{same_steps, is_lossy};
ghost use Rattle.channel_rules.specs.Sides.{side, info_in};
ghost use Rattle.channel_rules.specs.PrefixMap.{no_known, Met, Bounded, together_in, formed_by, formed_of};

use crate::prefix_map::{KnownPrefix, Slots, meet};
use crate::records::{ChannelDescription, ChannelInfo, CompressorScheme, Triplet};
use crate::sound::SoundChunk;

// A side of the chunk divided by the step, rounded up.
fn side_of(chunk_side: usize, step: usize) -> usize
    ensures value { result ≡ side chunk_side step }
{
    chunk_side.div_ceil(step.max(1))
}

// Takes in all channels: lists what is kept of each, and their prefixes. The room of the lists is demanded and is no type's matter: a type with a room of its own would turn down lists that are taken here.
pub fn list_channels(
    infos: &mut Vec<ChannelInfo>,
    known: &mut Vec<KnownPrefix>,
    sound: &SoundChunk<'_>,
)
    requires empty { (infos.old.items ≡ []) × (known.old.items ≡ []) }
    requires room { (length sound.now.chunk.channels.now ≤ vec_capacity infos.old) × (length sound.now.chunk.channels.now ≤ vec_capacity known.old) }
    ensures items { infos.new.items ≡ map (info_in sound.now.chunk.text.now sound.now.chunk.rules.now sound.now.chunk.rectangle) sound.now.chunk.channels.now }
    ensures met { Met sound.now.chunk.text.now sound.now.chunk.channels.now sound.now.chunk.rules.now (length sound.now.chunk.channels.now) known.new.items }
    ensures short { vec_len known.new ≤ length sound.now.chunk.channels.now }
    ensures capacity { (vec_capacity infos.new ≡ vec_capacity infos.old) × (vec_capacity known.new ≡ vec_capacity known.old) }
{
    let rectangle = sound.chunk.rectangle;
    for (index, channel) in sound.chunk.channels.iter().enumerate() {
        infos.push_reserved(ChannelInfo {
            scheme: meet(sound, index, known),
            width: side_of(rectangle.width, channel.x_sampling),
            height: side_of(rectangle.height, channel.y_sampling),
            sample_type: channel.sample_type,
            quantize_linearly: channel.quantize_linearly,
        });
    }
}

impl ChannelInfo {
    pub fn is_lossy(&self) -> bool
        ensures { result ≡ is_lossy self.now.scheme }
    {
        matches!(self.scheme, CompressorScheme::LossyDct)
    }
}

// Two fields of five: derived equality would compare names and types too.
fn have_same_steps(a: &ChannelDescription, b: &ChannelDescription) -> bool
    ensures { result ≡ same_steps a.now b.now }
{
    a.x_sampling == b.x_sampling && a.y_sampling == b.y_sampling
}

// Channels, and what is kept of each.
#[derive(Clone, Copy)]
pub struct Listed<'a> {
    pub channels: &'a [ChannelDescription],
    pub infos: &'a [ChannelInfo],
    ghost each: { length infos.now ≡ length channels.now },
}

impl Listed<'_> {
    // Three lossy channels with equal steps.
    fn go_together(&self, t: &Triplet) -> bool
        requires within { (t.now.r < length self.now.channels.now) × ((t.now.g < length self.now.channels.now) × (t.now.b < length self.now.channels.now)) }
        ensures { result ≡ together_in self.now.channels.now self.now.infos.now t.now.r t.now.g t.now.b }
    {
        self.infos[t.r].is_lossy()
            && self.infos[t.g].is_lossy()
            && self.infos[t.b].is_lossy()
            && have_same_steps(&self.channels[t.r], &self.channels[t.g])
            && have_same_steps(&self.channels[t.r], &self.channels[t.b])
    }

    // The triplet of these slots, where one forms.
    fn triplet_in(&self, slots: &Slots) -> Option<Triplet>
        requires within { Bounded (length self.now.channels.now) slots.now }
        ensures { result ≡ formed_by self.now.channels.now self.now.infos.now slots.now }
    {
        let r = slots.r?;
        let g = slots.g?;
        let b = slots.b?;
        let triplet = Triplet { r, g, b };
        if self.go_together(&triplet) {
            Some(triplet)
        } else {
            None
        }
    }
}

// Lists the triplets that form, in the order of the known prefixes.
pub fn list_triplets(out: &mut Vec<Triplet>, listed: &Listed<'_>, known: &[KnownPrefix])
    requires within { (k : ℕ) → k < length known.now → Bounded (length listed.now.channels.now) (slice_index_or known.now k no_known).slots }
    requires empty { out.old.items ≡ [] }
    requires room { length known.now ≤ vec_capacity out.old }
    ensures items { out.new.items ≡ formed_of listed.now.channels.now listed.now.infos.now known.now }
    ensures capacity { vec_capacity out.new ≡ vec_capacity out.old }
{
    for met in known {
        if let Some(triplet) = listed.triplet_in(&met.slots) {
            out.push_reserved(triplet);
        }
    }
}
