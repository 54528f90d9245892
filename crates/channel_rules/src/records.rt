// What a chunk is described by. Nothing in these records is trusted.

// How a channel's samples are stored.
#[derive(Clone, Copy, PartialEq, Eq)]
pub enum SampleType {
    U32,
    F16,
    F32,
}

// How a channel is compressed in the chunk. `Unknown` is a scheme that a rule can give, so no `Option` stands for it.
#[derive(Clone, Copy, PartialEq, Eq)]
pub enum CompressorScheme {
    Unknown,
    LossyDct,
    Rle,
}

// A part of the text that holds all names and suffixes. Two numbers and no slice, since a part that lies outside is to be refused.
#[derive(Clone, Copy)]
pub struct Part {
    pub start: usize,
    pub len: usize,
}

#[derive(Clone, Copy)]
pub struct ChannelDescription {
    pub name: Part,
    pub sample_type: SampleType,
    // Every n-th column and row has a sample; 0 counts as 1.
    pub x_sampling: usize,
    pub y_sampling: usize,
    pub quantize_linearly: bool,
}

// Gives the channels that it matches a scheme.
#[derive(Clone, Copy)]
pub struct Rule {
    pub suffix: Part,
    pub scheme: CompressorScheme,
    pub sample_type: SampleType,
    // The slot of a colour triplet that matching channels are written into. A number and no `Slot`, since rules are not trusted.
    pub csc_index: Option<usize>,
    pub case_insensitive: bool,
}

// The rectangle of pixels that the chunk covers.
#[derive(Clone, Copy)]
pub struct IntegerBounds {
    pub left: i32,
    pub top: i32,
    pub width: usize,
    pub height: usize,
}

// What a chunk is described by.
#[derive(Clone, Copy)]
pub struct Chunk<'a> {
    // All names and suffixes, end to end.
    pub text: &'a [u8],
    pub channels: &'a [ChannelDescription],
    pub rules: &'a [Rule],
    pub rectangle: IntegerBounds,
}

// What a roll keeps of a channel.
#[derive(Clone, Copy)]
pub struct ChannelInfo {
    pub scheme: CompressorScheme,
    pub width: usize,
    pub height: usize,
    pub sample_type: SampleType,
    pub quantize_linearly: bool,
}

// Three channels that were turned from colour into luma and chroma together: those of slots 0, 1 and 2.
#[derive(Clone, Copy, PartialEq, Eq)]
pub struct Triplet {
    pub r: usize,
    pub g: usize,
    pub b: usize,
}
