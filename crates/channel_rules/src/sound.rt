// A chunk whose names and suffixes have been looked at.
ghost use Rattle.channel_rules.specs.Triplets.{Named, Suffixed};

use crate::records::Chunk;

// A chunk whose names and suffixes are parts of its text.
#[derive(Clone, Copy)]
pub struct SoundChunk<'a> {
    pub chunk: Chunk<'a>,
    ghost named: { Named chunk.text.now chunk.channels.now },
    ghost suffixed: { Suffixed chunk.text.now chunk.rules.now },
}
