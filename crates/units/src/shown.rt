// A unit's channels, shown by the words that plates are answered in.
ghost use Rattle.std.specs.Prelude.{Some};
ghost use Rattle.units.specs.Units.{shown};

use crate::unit::UnitChannels;
use std::fmt;

impl fmt::Display for UnitChannels {
    ghost output = { λ channels. Some (shown channels) };

    fn fmt<W: fmt::Write>(&self, f: &mut fmt::Formatter<W>) -> fmt::Result {
        match self {
            UnitChannels::Triplet(triplet) => write!(f, "triplet {triplet}"),
            UnitChannels::Lone(channel) => write!(f, "lone {channel}"),
        }
    }
}
