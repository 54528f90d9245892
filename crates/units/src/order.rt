// The units of a roll, in the order in which they are decoded.
ghost use Rattle.std.specs.Prelude.{◌≡◌, ◌<◌, ◌≤◌, length, IfSome, slice_get, slice_index_or};
ghost use Rattle.std.specs.List.{list_any};
ghost use Rattle.channel_rules.specs.Triplets.{no_info};
ghost use Rattle.units.specs.Units.{holds, is_lone, leading, lones_in, units_in, UnitAt};

use crate::unit::{Unit, UnitChannels};
use channel_rules::Triplet;
use roll::Roll;

fn is_held(triplets: &[Triplet], channel: usize) -> bool
    ensures { result ≡ list_any (holds channel) triplets.now }
{
    triplets.iter().any(|triplet| [triplet.r, triplet.g, triplet.b].contains(&channel))
}

fn is_lone(roll: &Roll, channel: usize) -> bool
    requires { channel < length roll.now.channels.items }
    ensures { result ≡ is_lone roll.now.channels.items roll.now.triplets.items channel }
{
    roll.channels()[channel].is_lossy() && !is_held(roll.triplets(), channel)
}

// The next function runs the same chain: to share it, the iterator would need a type of its own.
fn lone_count(roll: &Roll) -> usize
    ensures value { result ≡ length (lones_in roll.now.channels.items roll.now.triplets.items) }
    ensures few { result ≤ length roll.now.channels.items }
{
    (0..roll.channels().len())
        .filter(|&channel| is_lone(roll, channel))
        .count()
}

// The lone channel before which there are `rank` others.
fn lone_channel(roll: &Roll, rank: usize) -> Option<usize>
    ensures value { result ≡ slice_get (lones_in roll.now.channels.items roll.now.triplets.items) rank }
    ensures within { IfSome result (λ i. i < length roll.now.channels.items) }
{
    (0..roll.channels().len())
        .filter(|&channel| is_lone(roll, channel))
        .nth(rank)
}

// How many units there are: the triplets, and the lossy channels that no triplet holds.
pub fn unit_count(roll: &Roll) -> usize
    ensures { result ≡ length (units_in roll.now.channels.items roll.now.triplets.items) }
{
    roll.triplets().len() + lone_count(roll)
}

// The channels of the unit at a place in the order.
fn channels_at(roll: &Roll, index: usize) -> Option<UnitChannels>
    ensures value { result ≡ slice_get (units_in roll.now.channels.items roll.now.triplets.items) index }
    ensures within { IfSome result (λ channels. leading channels < length roll.now.channels.items) }
{
    let triplets = roll.triplets();
    match triplets.get(index) {
        Some(triplet) => Some(UnitChannels::Triplet(*triplet)),
        None => lone_channel(roll, index - triplets.len()).map(UnitChannels::Lone),
    }
}

// The unit at a place in the order; None past the last.
pub fn unit_at(roll: &Roll, index: usize) -> Option<Unit>
    ensures { UnitAt roll.now.channels.items roll.now.triplets.items index result }
{
    channels_at(roll, index).map(|channels| unit_of(roll, channels))
}

fn unit_of(roll: &Roll, channels: UnitChannels) -> Unit
    requires { leading channels < length roll.now.channels.items }
    ensures channels { result.channels ≡ channels }
    ensures width { result.width ≡ (slice_index_or roll.now.channels.items (leading channels) no_info).width }
    ensures height { result.height ≡ (slice_index_or roll.now.channels.items (leading channels) no_info).height }
{
    let info = roll.channels()[channels.leading()];
    Unit {
        channels,
        width: info.width,
        height: info.height,
    }
}
