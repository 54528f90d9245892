// Reads a whole file.
ghost use Rattle.std.specs.Prelude.{◌≡◌, ◌+◌, ◌≤◌, IfErr};
ghost use Rattle.plate_file.specs.File.{Answered, on_line};
ghost use Rattle.plate_file.specs.Lines.{line_ends};
ghost use Rattle.plate_file.specs.Writes.{Faithful};

use crate::draft::Draft;
use crate::plate::Plate;
use crate::problem::{Malformed, Problem};
use std::alloc::Global;

// A fault is told with its line.
fn on_line<T>(line: usize, read: Result<T, Problem>) -> Result<T, Malformed>
    ensures { result ≡ on_line line read }
{
    read.map_err(|problem| Malformed { line, problem })
}

// What the file says, or its first fault.
pub fn parse_plate(heap: Global, bytes: &[u8]) -> Result<Plate, Malformed>
    ensures line { IfErr result (λ fault. (1 ≤ fault.line) × (fault.line ≤ line_ends bytes.now + 1)) }
    ensures answer { Answered bytes.now result }
    ensures faithful { Faithful bytes.now result }
{
    let mut draft = Draft::Opening;
    // Counted here, since a fault that is seen at the file's end stands on the last line.
    let mut line = 0;
    for text in bytes.split(|byte| *byte == b'\n') {
        line += 1;
        draft = on_line(line, draft.with_line(heap, text))?;
    }
    on_line(line, draft.finish())
}
