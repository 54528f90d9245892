// The prefixes met so far, in the order of their first appearance, each with the channels that hold its slots.
ghost use Rattle.std.specs.Prelude.{◌≡◌, ℕ, ◌+◌, ◌<◌, ◌≤◌, true, length, slice_index_or, vec_len, vec_capacity};
ghost use Rattle.channel_rules.specs.Picks.{FirstAt};
ghost use Rattle.channel_rules.specs.Slots.{slot_number};
ghost use Rattle.channel_rules.specs.Triplets.{no_channel, scheme_in};
ghost use Rattle.channel_rules.specs.PrefixMap.{no_known, put_at, ruled, stamped, known_bytes, Met};

use crate::records::{CompressorScheme, Rule};
use crate::slot::Slot;
use crate::sound::SoundChunk;

// A triplet whose slots may be free. No function serves both, so one generic type for the two would be no plainer.
#[derive(Clone, Copy, Default)]
pub struct Slots {
    pub r: Option<usize>,
    pub g: Option<usize>,
    pub b: Option<usize>,
}

// A prefix, by the first channel that has it. A place and no slice, since the list stays in the roll when the text is gone.
#[derive(Clone, Copy)]
pub struct KnownPrefix {
    pub first: usize,
    pub slots: Slots,
}

impl Slots {
    fn put(&mut self, slot: Slot, index: usize)
        ensures { self.new ≡ put_at (slot_number slot) index self.old }
    {
        match slot {
            Slot::R => self.r = Some(index),
            Slot::G => self.g = Some(index),
            Slot::B => self.b = Some(index),
        }
    }
}

// What a rule that matches does: it gives its scheme and writes the channel into its slot.
fn apply_rule(rule: &Rule, index: usize, scheme: &mut CompressorScheme, slots: &mut Slots)
    ensures scheme { scheme.new ≡ rule.now.scheme }
    ensures slots { slots.new ≡ ruled true rule.now.csc_index index slots.old }
{
    *scheme = rule.scheme;
    if let Some(Ok(slot)) = rule.csc_index.map(Slot::try_from) {
        slots.put(slot, index);
    }
}

// Tries all rules: the last match gives the scheme, each match with a slot writes the channel there.
fn apply_rules(sound: &SoundChunk<'_>, index: usize, slots: &mut Slots) -> CompressorScheme
    requires within { index < length sound.now.chunk.channels.now }
    ensures scheme { result ≡ scheme_in sound.now.chunk.text.now sound.now.chunk.rules.now (slice_index_or sound.now.chunk.channels.now index no_channel) }
    ensures slots { slots.new ≡ stamped sound.now.chunk.text.now sound.now.chunk.rules.now (slice_index_or sound.now.chunk.channels.now index no_channel) index slots.old }
{
    let sample_type = sound.chunk.channels[index].sample_type;
    let (_, suffix) = sound.split_name(index);
    let mut scheme = CompressorScheme::Unknown;
    for rule in sound.chunk.rules {
        if rule.matches(sound.chunk.text, suffix, sample_type) {
            apply_rule(rule, index, &mut scheme, slots);
        }
    }
    scheme
}

impl<'a> SoundChunk<'a> {
    // The bytes of a known prefix: those of the channel that it came with.
    fn known_prefix(&self, met: &KnownPrefix) -> &'a [u8]
        requires { met.now.first < length self.now.chunk.channels.now }
        ensures { result.now ≡ known_bytes self.now.chunk.text.now self.now.chunk.channels.now met.now }
    {
        let (prefix, _) = self.split_name(met.first);
        prefix
    }
}

// Where the prefix stands among the known ones. They are a list and no map: a map that stays in the roll cannot borrow its keys from the text, and owned keys would allocate.
fn place_of(sound: &SoundChunk<'_>, known: &[KnownPrefix], prefix: &[u8]) -> Option<usize>
    requires firsts { (k : ℕ) → k < length known.now → (slice_index_or known.now k no_known).first < length sound.now.chunk.channels.now }
    ensures { FirstAt (length known.now) (λ k. known_bytes sound.now.chunk.text.now sound.now.chunk.channels.now (slice_index_or known.now k no_known) ≡ prefix.now) result }
{
    known
        .iter()
        .position(|met| sound.known_prefix(met) == prefix)
}

// Takes in the channel at `index`: its prefix, put last where it is new, and its rules. Gives its scheme.
pub(crate) fn meet(
    sound: &SoundChunk<'_>,
    index: usize,
    known: &mut Vec<KnownPrefix>,
) -> CompressorScheme
    requires within { index < length sound.now.chunk.channels.now }
    requires met { Met sound.now.chunk.text.now sound.now.chunk.channels.now sound.now.chunk.rules.now index known.old.items }
    requires room { index < vec_capacity known.old }
    requires short { vec_len known.old ≤ index }
    ensures scheme { result ≡ scheme_in sound.now.chunk.text.now sound.now.chunk.rules.now (slice_index_or sound.now.chunk.channels.now index no_channel) }
    ensures met { Met sound.now.chunk.text.now sound.now.chunk.channels.now sound.now.chunk.rules.now (index + 1) known.new.items }
    ensures short { vec_len known.new ≤ index + 1 }
    ensures capacity { vec_capacity known.new ≡ vec_capacity known.old }
{
    let (prefix, _) = sound.split_name(index);
    match place_of(sound, known.as_slice(), prefix) {
        Some(place) => apply_rules(sound, index, &mut known[place].slots),
        None => {
            let first = index;
            let mut slots = Slots::default();
            let scheme = apply_rules(sound, index, &mut slots);
            known.push_reserved(KnownPrefix { first, slots });
            scheme
        }
    }
}
