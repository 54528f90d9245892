// Names and suffixes: bytes in quotes.
ghost use Rattle.std.specs.Prelude.{◌≡◌, ◌<◌, ◌++◌, length, drop, IfSome, Some, Ok, Err, MatchResult, IfOk};
ghost use Rattle.std.specs.Option.{option_map};
ghost use Rattle.plate_file.specs.Reading.{unread};
ghost use Rattle.plate_file.specs.Quoted.{is_plain, escape_in, letter_in, letter_size, letters_in, written_in, name_in, after_name, Opens, NameAdded};
ghost use Rattle.plate_file.specs.Steps.{found, Fault};

use crate::hex::hex_pair;
use crate::problem::Problem;
use crate::reader::{Reader, Run};
use channel_rules::Part;

// Whether a byte stands for itself inside the quotes.
pub(crate) fn is_plain(byte: u8) -> bool
    ensures { result ≡ is_plain byte }
{
    matches!(byte, 0x20..=0x7e) && byte != b'"' && byte != b'\\'
}

// The byte that `\xHH` at the front of `bytes` writes, and what follows it.
fn escape(bytes: &[u8]) -> Option<(u8, &[u8])>
    ensures value { option_map (λ found. found.0) result ≡ escape_in bytes.now }
    ensures after { IfSome result (λ found. found.1.now ≡ drop 4 bytes.now) }
    ensures goes { IfSome result (λ found. length found.1.now < length bytes.now) }
{
    let [b'\\', b'x', high, low, rest @ ..] = bytes else {
        return None;
    };
    Some((hex_pair(*high, *low)?, rest))
}

// The byte that is written at the front of `bytes`, and what follows it.
fn letter(bytes: &[u8]) -> Option<(u8, &[u8])>
    ensures value { option_map (λ found. found.0) result ≡ letter_in bytes.now }
    ensures after { IfSome result (λ found. found.1.now ≡ drop (letter_size bytes.now) bytes.now) }
    ensures goes { IfSome result (λ found. length found.1.now < length bytes.now) }
{
    let [byte, rest @ ..] = bytes else {
        return None;
    };
    if is_plain(*byte) {
        Some((*byte, rest))
    } else {
        escape(bytes)
    }
}

// Adds the bytes that `written` stands for to `text`. A `while`, since an iterator of letters would
// be a type of its own for this one loop.
fn add_letters(mut text: Vec<u8>, written: &[u8]) -> Result<Vec<u8>, Problem>
    ensures { MatchResult result (λ longer. option_map (λ name. text.items ++ name) (letters_in written.now) ≡ Some longer.items) (Fault (found Problem.BadName (letters_in written.now))) }
{
    let mut left = written;
    while !left.is_empty() {
        let (byte, rest) = letter(left).ok_or(Problem::BadName)?;
        text.push(byte)?;
        left = rest;
    }
    Ok(text)
}

impl<'a> Reader<'a> {
    // Takes the opening quote of the next field.
    fn open_quote(mut self) -> Result<Reader<'a>, Problem>
        ensures { MatchResult result (λ rest. Opens (unread self.entry) (unread rest)) (λ problem. written_in (unread self.entry) ≡ Err problem) }
    {
        self.pass(Run::Blanks);
        match self.left {
            [] => Err(Problem::MissingField),
            [b'"', left @ ..] => Ok(Reader { left }),
            _ => Err(Problem::BadName),
        }
    }

    // What stands between the quotes of the next field, and what follows them.
    fn between_quotes(self) -> Result<(&'a [u8], Reader<'a>), Problem>
        ensures value { MatchResult result (λ found. written_in (unread self.entry) ≡ Ok found.0.now) (λ problem. written_in (unread self.entry) ≡ Err problem) }
        ensures after { IfOk result (λ found. unread found.1 ≡ after_name (unread self.entry)) }
    {
        let mut reader = self.open_quote()?;
        let written = reader.pass(Run::Letters);
        let [_, left @ ..] = reader.left else {
            return Err(Problem::BadName);
        };
        // The name is a field, so a blank or the line's end follows the quote.
        if Run::Field.count(left) > 0 {
            return Err(Problem::BadName);
        }
        Ok((written, Reader { left }))
    }

    // The name that stands next, as a part of the text behind which it is put, and what follows it.
    pub(crate) fn quoted(self, text: Vec<u8>) -> Result<(Part, Vec<u8>, Reader<'a>), Problem>
        ensures after { IfOk result (λ found. unread found.2 ≡ after_name (unread self.entry)) }
        ensures exact { MatchResult result (λ found. NameAdded (unread self.entry) text.items found.1.items found.0) (Fault (name_in (unread self.entry))) }
    {
        let (written, reader) = self.between_quotes()?;
        let start = text.len();
        let text = add_letters(text, written)?;
        let len = text.len() - start;
        Ok((Part { start, len }, text, reader))
    }
}
