// Sample types and schemes, shown by the words that plate files use, and triplets by their channels.
ghost use Rattle.std.specs.Prelude.{Some};
ghost use Rattle.channel_rules.specs.Shown.{type_word, scheme_word, triplet_text};

use crate::records::{CompressorScheme, SampleType, Triplet};
use std::fmt;

impl fmt::Display for SampleType {
    ghost output = { λ t. Some (type_word t) };

    fn fmt<W: fmt::Write>(&self, f: &mut fmt::Formatter<W>) -> fmt::Result {
        f.write_str(match self {
            SampleType::U32 => "u32",
            SampleType::F16 => "f16",
            SampleType::F32 => "f32",
        })
    }
}

impl fmt::Display for CompressorScheme {
    ghost output = { λ scheme. Some (scheme_word scheme) };

    fn fmt<W: fmt::Write>(&self, f: &mut fmt::Formatter<W>) -> fmt::Result {
        f.write_str(match self {
            CompressorScheme::Unknown => "unknown",
            CompressorScheme::LossyDct => "lossy",
            CompressorScheme::Rle => "rle",
        })
    }
}

impl fmt::Display for Triplet {
    ghost output = { λ triplet. Some (triplet_text triplet) };

    fn fmt<W: fmt::Write>(&self, f: &mut fmt::Formatter<W>) -> fmt::Result {
        write!(f, "{} {} {}", self.r, self.g, self.b)
    }
}
