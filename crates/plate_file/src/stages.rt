// What one line more makes of a draft.
ghost use Rattle.std.specs.Prelude.{◌≡◌, ◌==◌, cond, Ok, Err, MatchResult};
ghost use Rattle.plate_file.specs.Reading.{field_in, after_field, unread};
ghost use Rattle.plate_file.specs.Words.{meant, keywords};
ghost use Rattle.plate_file.specs.File.{contents, progress, is_idle, begun, after_heading, behind, more_words, line_after, Leads, finished};
ghost use Rattle.plate_file.specs.Headings.{heading};

use crate::draft::{Draft, StreamKind};
use crate::keywords::{Keyword, keyword_of};
use crate::plate::{Header, Plate};
use crate::problem::Problem;
use crate::reader::Reader;
use std::alloc::Global;

// Whether the line is a comment or has no field.
fn is_idle(line: &[u8]) -> bool
    ensures { result ≡ is_idle line.now }
{
    line.starts_with(b"#") || Reader { left: line }.next_field().is_none()
}

// Behind the word `dc`.
fn begin(heap: Global, header: Header, reader: Reader<'_>) -> Result<Draft, Problem>
    ensures { Leads (begun (heading header) header.rectangle (unread reader.entry)) result }
{
    let rectangle = header.rectangle.ok_or(Problem::MissingRectangle)?;
    let count = reader.count()?;
    let plate = Plate {
        records: header.records,
        rectangle,
        dc: Vec::new(heap),
        ac: Vec::new(heap),
    };
    Ok(Draft::Words(StreamKind::Dc, plate, count))
}

// A line before the streams. Idle ones do not come here.
fn heading_line(heap: Global, header: Header, line: &[u8]) -> Result<Draft, Problem>
    ensures { Leads (after_heading (heading header) (meant keywords (field_in line.now)) (after_field line.now)) result }
{
    let mut reader = Reader { left: line };
    let header = match keyword_of(reader.field()) {
        Some(Keyword::Rectangle) => header.with_rectangle(reader)?,
        Some(Keyword::Channel) => header.with_channel(reader)?,
        Some(Keyword::Rule) => header.with_rule(reader)?,
        Some(Keyword::Dc) => return begin(heap, header, reader),
        Some(Keyword::Ac) => return Err(Problem::MissingStream),
        None => return Err(Problem::UnknownWord),
    };
    Ok(Draft::Heading(header))
}

// A line behind the line that begins a stream. Idle ones do not come here.
fn stream_line(
    stream: StreamKind,
    mut plate: Plate,
    to_come: usize,
    line: &[u8],
) -> Result<Draft, Problem>
    ensures { Leads (cond (to_come == 0) (behind stream (contents plate) (meant keywords (field_in line.now)) (after_field line.now)) (more_words stream (contents plate) to_come line.now)) result }
{
    let mut reader = Reader { left: line };
    if to_come > 0 {
        // Only the list that grows is another.
        let left = match stream {
            StreamKind::Dc => reader.add_words(&mut plate.dc, to_come)?,
            StreamKind::Ac => reader.add_words(&mut plate.ac, to_come)?,
        };
        return Ok(Draft::Words(stream, plate, left));
    }
    match (stream, keyword_of(reader.field())) {
        (StreamKind::Dc, Some(Keyword::Ac)) => {
            let count = reader.count()?;
            Ok(Draft::Words(StreamKind::Ac, plate, count))
        }
        (_, Some(_)) => Err(Problem::OutOfPlace),
        (_, None) => Err(Problem::TooManyWords),
    }
}

impl Draft {
    // What one line more makes of it. A match and no closures, since each stage holds other things.
    pub(crate) fn with_line(self, heap: Global, line: &[u8]) -> Result<Draft, Problem>
        ensures { Leads (line_after (progress self) line.now) result }
    {
        match self {
            Draft::Opening => {
                Reader { left: line }.first_line()?;
                Ok(Draft::Heading(Header::new(heap)))
            }
            // Passed over before the draft is taken apart, which costs more than the line.
            idle if is_idle(line) => Ok(idle),
            Draft::Heading(header) => heading_line(heap, header, line),
            Draft::Words(stream, plate, to_come) => stream_line(stream, plate, to_come, line),
        }
    }

    // The plate, where the file ends.
    pub(crate) fn finish(self) -> Result<Plate, Problem>
        ensures { MatchResult result (λ plate. finished (progress self) ≡ Ok (contents plate)) (λ problem. finished (progress self) ≡ Err problem) }
    {
        match self {
            Draft::Opening | Draft::Heading(_) | Draft::Words(StreamKind::Dc, _, 0) => Err(
                Problem::MissingStream,
            ),
            Draft::Words(StreamKind::Ac, plate, 0) => Ok(plate),
            Draft::Words(_, _, _) => Err(Problem::TooFewWords),
        }
    }
}
