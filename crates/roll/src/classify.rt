// Fills a roll from the records of a chunk.
ghost use Rattle.std.specs.Prelude.{◌≡◌, map};
ghost use Rattle.channel_rules.specs.Triplets.{triplets_in};
ghost use Rattle.channel_rules.specs.Sides.{info_in};
ghost use Rattle.roll.specs.Refusals.{Judged, unless_refused};
ghost use Rattle.roll.specs.Laws.{Laws};

use crate::checks::{check_records, held_twice};
use crate::refusal::Refusal;
use crate::roll::Roll;
use channel_rules::{Chunk, Listed, list_channels, list_triplets};

// Classifies each channel and finds the colour triplets. A refusal leaves the roll empty. Nothing is allocated.
#[tactic(auto, using(crate::proofs::Lawful::laws))]
pub fn classify_channels(roll: &mut Roll, chunk: &Chunk<'_>) -> Result<(), Refusal>
    ensures answer { Judged chunk.now.text.now chunk.now.channels.now chunk.now.rules.now chunk.now.rectangle result }
    ensures channels { roll.new.channels.items ≡ unless_refused result (map (info_in chunk.now.text.now chunk.now.rules.now chunk.now.rectangle) chunk.now.channels.now) }
    ensures triplets { roll.new.triplets.items ≡ unless_refused result (triplets_in chunk.now.text.now chunk.now.channels.now chunk.now.rules.now) }
    ensures laws { Laws }
{
    roll.channels.clear();
    roll.triplets.clear();
    let sound = check_records(chunk)?;
    list_channels(&mut roll.channels, &mut roll.prefix_map, &sound);
    let listed = Listed {
        channels: chunk.channels,
        infos: roll.channels.as_slice(),
    };
    list_triplets(&mut roll.triplets, &listed, roll.prefix_map.as_slice());
    roll.prefix_map.clear();
    if let Some(index) = held_twice(roll.triplets.as_slice(), chunk.channels.len()) {
        roll.channels.clear();
        roll.triplets.clear();
        return Err(Refusal::HeldTwice(index));
    }
    Ok(())
}
