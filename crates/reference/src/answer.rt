// What is answered for a plate, in the words of an `.expected` file.
use plate_file::Plate;
use roll::{Refusal, Roll, classify_channels};
use std::alloc::{AllocError, Global};

// The first lines of an `.expected` file.
#[derive(Drop)]
pub enum Answer {
    // What follows them there says how decoding ended.
    Roll(String),
    // They are all of the file.
    Refused(String),
}

impl Answer {
    pub fn is_in(&self, expected: &[u8]) -> bool {
        match self {
            Answer::Roll(lines) => expected.strip_prefix(lines.as_bytes()).is_some_and(
                |rest| rest.starts_with(b"ok\n") || rest.starts_with(b"short "),
            ),
            Answer::Refused(line) => expected == line.as_bytes(),
        }
    }
}

pub fn answer_of(heap: Global, roll: &mut Roll, plate: &Plate) -> Result<Answer, AllocError> {
    match classify_channels(roll, &plate.chunk()) {
        Ok(()) => Ok(Answer::Roll(roll_lines(heap, roll)?)),
        Err(refusal) => Ok(Answer::Refused(refusal_line(heap, &refusal)?)),
    }
}

fn roll_lines(heap: Global, roll: &Roll) -> Result<String, AllocError> {
    let mut lines = String::new(heap);
    for (i, info) in roll.channels().iter().enumerate() {
        writeln!(
            lines,
            "channel {i} {} {}x{}",
            info.scheme, info.width, info.height
        )?;
    }
    for triplet in roll.triplets() {
        writeln!(lines, "triplet {triplet}")?;
    }
    Ok(lines)
}

fn refusal_line(heap: Global, refusal: &Refusal) -> Result<String, AllocError> {
    let number = refusal.number();
    match refusal.concerned() {
        Some(whom) => format!(in heap; "refused {number} {whom}\n"),
        None => format!(in heap; "refused {number}\n"),
    }
}
