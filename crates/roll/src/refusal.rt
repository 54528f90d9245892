// Why a chunk is turned down.
ghost use Rattle.std.specs.Prelude.{◌≡◌, Some};
ghost use Rattle.roll.specs.Refusals.{number, concerned};
ghost use Rattle.roll.specs.Shown.{concerned_text, whom_text, reason_text, refusal_text};

use std::fmt;

// The channel or the rule that a refusal is about, by its place in the list.
#[derive(Clone, Copy, Debug, PartialEq, Eq)]
pub enum Concerned {
    Channel(usize),
    Rule(usize),
}

// What `concerned` answers, to be shown: `None` is the chunk as a whole.
#[derive(Clone, Copy, Debug, PartialEq, Eq)]
pub struct Whom(pub Option<Concerned>);

#[derive(Clone, Copy, Debug, PartialEq, Eq)]
pub enum Refusal {
    TooMany,
    ChunkTooLarge,
    // No chunk gets this with `None`.
    OutsideText(Option<Concerned>),
    StepTooLarge(usize),
    NoSuchSlot(usize),
    OffStep(usize),
    HeldTwice(usize),
}

impl Refusal {
    // What a user is told; calls answer the enum.
    pub fn number(&self) -> u8
        ensures { result ≡ number self.now }
    {
        match self {
            Refusal::TooMany => 1,
            Refusal::ChunkTooLarge => 2,
            Refusal::OutsideText(_) => 3,
            Refusal::StepTooLarge(_) => 4,
            Refusal::NoSuchSlot(_) => 5,
            Refusal::OffStep(_) => 6,
            Refusal::HeldTwice(_) => 7,
        }
    }

    // The chunk as a whole gives `None`.
    pub fn concerned(&self) -> Option<Concerned>
        ensures { result ≡ concerned self.now }
    {
        match *self {
            Refusal::TooMany | Refusal::ChunkTooLarge => None,
            Refusal::OutsideText(whom) => whom,
            Refusal::StepTooLarge(channel) => Some(Concerned::Channel(channel)),
            Refusal::NoSuchSlot(rule) => Some(Concerned::Rule(rule)),
            Refusal::OffStep(channel) => Some(Concerned::Channel(channel)),
            Refusal::HeldTwice(channel) => Some(Concerned::Channel(channel)),
        }
    }

    fn reason(&self) -> &'static str
        ensures { result.now ≡ reason_text self.now }
    {
        match self {
            Refusal::TooMany => "there are more than 64 channels or more than 64 rules",
            Refusal::ChunkTooLarge => "a side of the chunk is above 8192",
            Refusal::OutsideText(_) =>
                "the name or suffix is not a part of the text or is longer than 255 bytes",
            Refusal::StepTooLarge(_) => "a sampling step is above 8192",
            Refusal::NoSuchSlot(_) => "the slot is neither none nor 0, 1 or 2",
            Refusal::OffStep(_) => "the chunk's left or top is no multiple of a sampling step",
            Refusal::HeldTwice(_) => "a triplet would hold the channel twice",
        }
    }
}

// Written out and not derived: the text of a derived one stands in no contract.
impl fmt::Display for Concerned {
    ghost output = { λ whom. Some (concerned_text whom) };

    fn fmt<W: fmt::Write>(&self, f: &mut fmt::Formatter<W>) -> fmt::Result {
        match self {
            Concerned::Channel(i) => write!(f, "channel {i}"),
            Concerned::Rule(j) => write!(f, "rule {j}"),
        }
    }
}

impl fmt::Display for Whom {
    ghost output = { λ whom. Some (whom_text whom.0) };

    fn fmt<W: fmt::Write>(&self, f: &mut fmt::Formatter<W>) -> fmt::Result {
        match self.0 {
            Some(concerned) => write!(f, "{concerned}"),
            None => f.write_str("the chunk"),
        }
    }
}

impl fmt::Display for Refusal {
    ghost output = { λ refusal. Some (refusal_text refusal) };

    fn fmt<W: fmt::Write>(&self, f: &mut fmt::Formatter<W>) -> fmt::Result {
        let number = self.number();
        let why = self.reason();
        let whom = Whom(self.concerned());
        write!(f, "refusal {number}, {whom}: {why}")
    }
}
