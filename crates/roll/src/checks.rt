// What a chunk is turned down for.
ghost use Rattle.std.specs.Prelude.{◌≡◌, length, slice_index_or, Decides, IfOk};
ghost use Rattle.channel_rules.specs.Picks.{FirstAt};
ghost use Rattle.channel_rules.specs.Triplets.{no_channel, no_rule};
ghost use Rattle.roll.specs.Refusals.{Outside, LongStep, OddSlot, Multiple, Astray, JudgedRecords, Twice, Doubled};

use crate::refusal::{Concerned, Refusal};
use crate::roll::MOST_CHANNELS;
use channel_rules::{
    ChannelDescription, Chunk, IntegerBounds, Part, Rule, Slot, SoundChunk, Triplet,
};

const MOST_RULES: usize = 64;

// No side of a chunk is longer, and no sampling step.
const LARGEST: usize = 8192;

fn is_outside(text: &[u8], part: &Part) -> bool
    ensures { Decides result (Outside text.now part.now) }
{
    part.get(text).is_none() || part.len > 255
}

fn outside_name(chunk: &Chunk<'_>) -> Option<usize>
    ensures { FirstAt (length chunk.now.channels.now) (λ i. Outside chunk.now.text.now (slice_index_or chunk.now.channels.now i no_channel).name) result }
{
    chunk
        .channels
        .iter()
        .position(|channel| is_outside(chunk.text, &channel.name))
}

fn outside_suffix(chunk: &Chunk<'_>) -> Option<usize>
    ensures { FirstAt (length chunk.now.rules.now) (λ j. Outside chunk.now.text.now (slice_index_or chunk.now.rules.now j no_rule).suffix) result }
{
    chunk
        .rules
        .iter()
        .position(|rule| is_outside(chunk.text, &rule.suffix))
}

fn has_long_step(channel: &ChannelDescription) -> bool
    ensures { Decides result (LongStep channel.now) }
{
    channel.x_sampling > LARGEST || channel.y_sampling > LARGEST
}

fn long_step(chunk: &Chunk<'_>) -> Option<usize>
    ensures { FirstAt (length chunk.now.channels.now) (λ i. LongStep (slice_index_or chunk.now.channels.now i no_channel)) result }
{
    chunk.channels.iter().position(has_long_step)
}

fn has_odd_slot(rule: &Rule) -> bool
    ensures { Decides result (OddSlot rule.now) }
{
    rule.csc_index
        .is_some_and(|slot| Slot::try_from(slot).is_err())
}

fn odd_slot(chunk: &Chunk<'_>) -> Option<usize>
    ensures { FirstAt (length chunk.now.rules.now) (λ j. OddSlot (slice_index_or chunk.now.rules.now j no_rule)) result }
{
    chunk.rules.iter().position(has_odd_slot)
}

// `as`, since no `From` leads from u32 to usize.
fn is_multiple(place: i32, step: usize) -> bool
    ensures { Decides result (Multiple place step) }
{
    (place.unsigned_abs() as usize).is_multiple_of(step.max(1))
}

fn is_astray(rectangle: &IntegerBounds, channel: &ChannelDescription) -> bool
    ensures { Decides result (Astray rectangle.now channel.now) }
{
    !is_multiple(rectangle.left, channel.x_sampling)
        || !is_multiple(rectangle.top, channel.y_sampling)
}

fn astray(chunk: &Chunk<'_>) -> Option<usize>
    ensures { FirstAt (length chunk.now.channels.now) (λ i. Astray chunk.now.rectangle (slice_index_or chunk.now.channels.now i no_channel)) result }
{
    chunk
        .channels
        .iter()
        .position(|channel| is_astray(&chunk.rectangle, channel))
}

// Refusals 1 to 6, in their order. A chunk that passes is sound.
pub(crate) fn check_records<'a>(chunk: &Chunk<'a>) -> Result<SoundChunk<'a>, Refusal>
    ensures answer { JudgedRecords chunk.now.text.now chunk.now.channels.now chunk.now.rules.now chunk.now.rectangle result }
    ensures same { IfOk result (λ sound. sound.chunk ≡ chunk.now) }
{
    let rectangle = chunk.rectangle;
    if chunk.channels.len() > MOST_CHANNELS || chunk.rules.len() > MOST_RULES {
        return Err(Refusal::TooMany);
    }
    if rectangle.width > LARGEST || rectangle.height > LARGEST {
        return Err(Refusal::ChunkTooLarge);
    }
    if let Some(index) = outside_name(chunk) {
        return Err(Refusal::OutsideText(Some(Concerned::Channel(index))));
    }
    if let Some(index) = outside_suffix(chunk) {
        return Err(Refusal::OutsideText(Some(Concerned::Rule(index))));
    }
    if let Some(index) = long_step(chunk) {
        return Err(Refusal::StepTooLarge(index));
    }
    if let Some(index) = odd_slot(chunk) {
        return Err(Refusal::NoSuchSlot(index));
    }
    if let Some(index) = astray(chunk) {
        return Err(Refusal::OffStep(index));
    }
    Ok(SoundChunk { chunk: *chunk })
}

fn is_twice(triplet: &Triplet, index: usize) -> bool
    ensures { Decides result (Twice triplet.now index) }
{
    triplet.r == index && triplet.g == index
        || triplet.r == index && triplet.b == index
        || triplet.g == index && triplet.b == index
}

fn is_doubled(triplets: &[Triplet], index: usize) -> bool
    ensures { Decides result (Doubled triplets.now index) }
{
    triplets.iter().any(|triplet| is_twice(triplet, index))
}

// The lowest channel below `count` that one of the triplets holds twice.
pub(crate) fn held_twice(triplets: &[Triplet], count: usize) -> Option<usize>
    ensures { FirstAt count (Doubled triplets.now) result }
{
    (0..count).find(|index| is_doubled(triplets, *index))
}
