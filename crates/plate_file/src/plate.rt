// What a plate file says.
ghost use Rattle.std.specs.Prelude.{◌≡◌};
ghost use Rattle.channel_rules.specs.Triplets.{Named, Suffixed};

use channel_rules::{ChannelDescription, Chunk, IntegerBounds, Rule};

// The channels and rules of a chunk, and the text that holds their names and suffixes.
#[derive(Drop)]
pub struct Records {
    // All names and suffixes, end to end.
    pub text: Vec<u8>,
    pub channels: Vec<ChannelDescription>,
    pub rules: Vec<Rule>,
    ghost named: { Named text.items channels.items },
    ghost suffixed: { Suffixed text.items rules.items },
}

#[derive(Drop)]
pub struct Plate {
    pub records: Records,
    pub rectangle: IntegerBounds,
    pub dc: Vec<u16>,
    pub ac: Vec<u16>,
}

impl Plate {
    // What is classified of it.
    pub fn chunk(&self) -> Chunk<'_>
        ensures text { result.text.now ≡ self.now.records.text.items }
        ensures channels { result.channels.now ≡ self.now.records.channels.items }
        ensures rules { result.rules.now ≡ self.now.records.rules.items }
        ensures rectangle { result.rectangle ≡ self.now.rectangle }
    {
        Chunk {
            text: self.records.text.as_slice(),
            channels: self.records.channels.as_slice(),
            rules: self.records.rules.as_slice(),
            rectangle: self.rectangle,
        }
    }
}

// What stands before the streams.
#[derive(Drop)]
pub(crate) struct Header {
    pub(crate) records: Records,
    pub(crate) rectangle: Option<IntegerBounds>,
}
