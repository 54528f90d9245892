// What can be wrong with a plate file.
ghost use Rattle.std.specs.Prelude.{◌≡◌, Some};
ghost use Rattle.plate_file.specs.declared.problem.Problem.TheVariants.{OutOfMemory};
ghost use Rattle.plate_file.specs.Steps.{problem_of};
ghost use Rattle.plate_file.specs.Shown.{problem_text, malformed_text};

use crate::numbers::NumberFault;
use std::alloc::{AllocError, AllocFailed};
use std::fmt;

#[derive(Clone, Copy, Debug, PartialEq, Eq)]
pub enum Problem {
    NotAPlate,
    UnknownWord,
    MissingField,
    ExtraField,
    NotANumber,
    OutOfRange,
    BadName,
    UnknownSampleType,
    UnknownScheme,
    SecondRectangle,
    MissingRectangle,
    MissingStream,
    BadStreamWord,
    TooFewWords,
    TooManyWords,
    OutOfPlace,
    OutOfMemory,
}

impl Problem {
    fn sentence(self) -> &'static str
        ensures { result.now ≡ problem_text self }
    {
        match self {
            Problem::NotAPlate => "the first line is not `plate 1`",
            Problem::UnknownWord => "the line begins with an unknown word",
            Problem::MissingField => "a field is missing",
            Problem::ExtraField => "there is something after the last field",
            Problem::NotANumber => "a field is not a decimal number",
            Problem::OutOfRange => "a number is out of range",
            Problem::BadName => "a name is not written in quotes with plain bytes and \\xHH",
            Problem::UnknownSampleType => "a sample type is not u32, f16 or f32",
            Problem::UnknownScheme => "a scheme is not unknown, lossy or rle",
            Problem::SecondRectangle => "there is a second rectangle",
            Problem::MissingRectangle => "the rectangle is missing",
            Problem::MissingStream => "a stream is missing",
            Problem::BadStreamWord => "a word of the stream is not four lower-case hex digits",
            Problem::TooFewWords => "the stream has fewer words than its count says",
            Problem::TooManyWords =>
                "something stands after the last word that the stream's count allows",
            Problem::OutOfPlace => "a line of this kind may not stand after a stream",
            Problem::OutOfMemory => "there is not enough memory",
        }
    }
}

// Written out and not derived: the text of a derived one stands in no contract.
impl fmt::Display for Problem {
    ghost output = { λ problem. Some (problem_text problem) };

    fn fmt<W: fmt::Write>(&self, f: &mut fmt::Formatter<W>) -> fmt::Result {
        f.write_str(self.sentence())
    }
}

// Written out too, since contracts name what these give.
impl From<AllocError> for Problem {
    ghost from_gives = { λ _ r. r ≡ OutOfMemory };

    fn from(_e: AllocError) -> Problem {
        Problem::OutOfMemory
    }
}

impl<T: Drop> From<AllocFailed<T>> for Problem {
    ghost from_gives = { λ _ r. r ≡ OutOfMemory };

    fn from(_e: AllocFailed<T>) -> Problem {
        Problem::OutOfMemory
    }
}

impl From<NumberFault> for Problem {
    ghost from_gives = { λ fault r. r ≡ problem_of fault };

    fn from(e: NumberFault) -> Problem {
        match e {
            NumberFault::NotANumber => Problem::NotANumber,
            NumberFault::OutOfRange => Problem::OutOfRange,
        }
    }
}

// The first fault of a file, and the line that it stands on, counted from 1.
#[derive(Clone, Copy, Debug, PartialEq, Eq)]
pub struct Malformed {
    pub line: usize,
    pub problem: Problem,
}

impl fmt::Display for Malformed {
    ghost output = { λ fault. Some (malformed_text fault) };

    fn fmt<W: fmt::Write>(&self, f: &mut fmt::Formatter<W>) -> fmt::Result {
        write!(f, "line {}: {}", self.line, self.problem)
    }
}
