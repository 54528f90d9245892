// The words of the format.
ghost use Rattle.std.specs.Prelude.{◌≡◌};
ghost use Rattle.plate_file.specs.Words.{LineWord, TypeWord, SchemeWord, entries, meant, keywords, types, schemes};

use channel_rules::{CompressorScheme, SampleType};

// The word that a line begins with.
#[derive(Clone, Copy)]
pub(crate) enum Keyword {
    Rectangle,
    Channel,
    Rule,
    Dc,
    Ac,
}

// Words, and what they stand for.
const KEYWORDS: [(&[u8], Keyword); 5] = [
    (b"rectangle", Keyword::Rectangle),
    (b"channel", Keyword::Channel),
    (b"rule", Keyword::Rule),
    (b"dc", Keyword::Dc),
    (b"ac", Keyword::Ac),
];

const TYPES: [(&[u8], SampleType); 3] = [
    (b"u32", SampleType::U32),
    (b"f16", SampleType::F16),
    (b"f32", SampleType::F32),
];

const SCHEMES: [(&[u8], CompressorScheme); 3] = [
    (b"unknown", CompressorScheme::Unknown),
    (b"lossy", CompressorScheme::LossyDct),
    (b"rle", CompressorScheme::Rle),
];

// What a word stands for by a table.
fn meant<T: Copy>(table: &[(&[u8], T)], field: &[u8]) -> Option<T>
    ensures { result ≡ meant (entries table.now) field.now }
{
    table
        .iter()
        .find(|(word, _)| field == *word)
        .map(|(_, means)| *means)
}

// The next three each say a relation of their own, which a generic function could not name.
pub(crate) fn keyword_of(field: &[u8]) -> Option<Keyword>
    ensures word { LineWord field.now result }
    ensures exact { result ≡ meant keywords field.now }
{
    meant(&KEYWORDS, field)
}

pub(crate) fn sample_type_of(field: &[u8]) -> Option<SampleType>
    ensures word { TypeWord field.now result }
    ensures exact { result ≡ meant types field.now }
{
    meant(&TYPES, field)
}

pub(crate) fn scheme_of(field: &[u8]) -> Option<CompressorScheme>
    ensures word { SchemeWord field.now result }
    ensures exact { result ≡ meant schemes field.now }
{
    meant(&SCHEMES, field)
}
