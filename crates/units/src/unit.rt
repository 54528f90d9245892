// A unit of a roll: channels that are decoded together.
ghost use Rattle.std.specs.Prelude.{◌≡◌, ◌≤◌};

use channel_rules::Triplet;

#[derive(Clone, Copy, PartialEq, Eq)]
pub enum UnitChannels {
    Triplet(Triplet),
    Lone(usize),
}

impl UnitChannels {
    ghost use Rattle.units.specs.Units.{leading};

    // The channel whose size is the unit's.
    pub(crate) fn leading(&self) -> usize
        ensures { result ≡ leading self.now }
    {
        match self {
            UnitChannels::Triplet(triplet) => triplet.r,
            UnitChannels::Lone(channel) => *channel,
        }
    }
}

#[derive(Clone, Copy, PartialEq, Eq)]
pub struct Unit {
    pub channels: UnitChannels,
    // The size of each of its planes.
    pub width: usize,
    pub height: usize,
    ghost sides: { (width ≤ 8192) × (height ≤ 8192) },
}
