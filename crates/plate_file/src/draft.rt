// A plate while its file is being read, line by line.
use crate::plate::{Header, Plate};

// Which of a plate's two streams.
#[derive(Clone, Copy)]
pub(crate) enum StreamKind {
    Dc,
    Ac,
}

// How far the file has been read.
#[derive(Drop)]
pub(crate) enum Draft {
    Opening,
    Heading(Header),
    // Behind the plate: how many words of the stream are to come.
    Words(StreamKind, Plate, usize),
}
