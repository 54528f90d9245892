// The slots of a colour triplet.
ghost use Rattle.channel_rules.specs.Slots.{Decodes};

// A slot, by the colour that is in it once the triplet is turned back.
#[derive(Clone, Copy, Debug, PartialEq, Eq)]
pub enum Slot {
    R,
    G,
    B,
}

// A number that no slot has.
#[derive(Clone, Copy, Debug, PartialEq, Eq)]
pub struct NotASlot(pub usize);

impl TryFrom<usize> for Slot {
    type Error = NotASlot;

    ghost try_from_gives = { Decodes };

    fn try_from(number: usize) -> Result<Slot, NotASlot> {
        match number {
            0 => Ok(Slot::R),
            1 => Ok(Slot::G),
            2 => Ok(Slot::B),
            _ => Err(NotASlot(number)),
        }
    }
}
