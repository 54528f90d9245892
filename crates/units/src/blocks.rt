// The size of a unit in blocks.
ghost use Rattle.std.specs.Prelude.{◌≡◌};
ghost use Rattle.channel_rules.specs.Sides.{side};

use crate::unit::Unit;

// Planes are cut into blocks of 8 by 8 samples from their top left; the last of a row or column may stand over the edge.
const BLOCK_SIDE: usize = 8;

// Each is one call of the library: a function that both share would be longer than either.
impl Unit {
    pub fn blocks_wide(&self) -> usize
        ensures { result ≡ side self.now.width 8 }
    {
        self.width.div_ceil(BLOCK_SIDE)
    }

    pub fn blocks_high(&self) -> usize
        ensures { result ≡ side self.now.height 8 }
    {
        self.height.div_ceil(BLOCK_SIDE)
    }
}
