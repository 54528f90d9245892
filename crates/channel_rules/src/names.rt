// A channel's name: all up to its last dot is the prefix, what follows is the suffix.
ghost use Rattle.std.specs.Prelude.{◌≡◌, ◌<◌, length, slice_index_or, MatchOption};
ghost use Rattle.channel_rules.specs.Names.{Inside, Splits, bytes, cut, prefix_in, suffix_in};
ghost use Rattle.channel_rules.specs.Triplets.{no_channel};

use crate::records::Part;
use crate::sound::SoundChunk;

// How many bytes of a name stand up to its last dot, that included.
fn prefix_len(name: &[u8]) -> usize
    ensures splits { Splits name.now result }
    ensures value { result ≡ cut name.now }
{
    name.iter()
        .rposition(|byte| *byte == b'.')
        .map_or(0, |dot| dot + 1)
}

impl Part {
    // Its bytes, if it lies in the text.
    pub fn get<'a>(&self, text: &'a [u8]) -> Option<&'a [u8]>
        ensures { MatchOption result (Inside text.now self.now → ⊥) (λ b. Inside text.now self.now × (b.now ≡ bytes text.now self.now)) }
    {
        text.get(self.start..)?.get(..self.len)
    }

    pub(crate) fn of<'a>(&self, text: &'a [u8]) -> &'a [u8]
        requires { Inside text.now self.now }
        ensures value { result.now ≡ bytes text.now self.now }
    {
        &text[self.start..self.start + self.len]
    }
}

impl<'a> SoundChunk<'a> {
    // The prefix of a channel's name, and the suffix.
    pub(crate) fn split_name(&self, index: usize) -> (&'a [u8], &'a [u8])
        requires { index < length self.now.chunk.channels.now }
        ensures prefix { result.0.now ≡ prefix_in self.now.chunk.text.now (slice_index_or self.now.chunk.channels.now index no_channel) }
        ensures suffix { result.1.now ≡ suffix_in self.now.chunk.text.now (slice_index_or self.now.chunk.channels.now index no_channel) }
    {
        let name = self.chunk.channels[index].name.of(self.chunk.text);
        name.split_at(prefix_len(name))
    }
}
