// A stream: a count, and then as many words.
ghost use Rattle.std.specs.Prelude.{◌≡◌, IfOk, Ok, MatchResult};
ghost use Rattle.plate_file.specs.Reading.{field_in, unread};
ghost use Rattle.plate_file.specs.Fields.{fields_of};
ghost use Rattle.plate_file.specs.Decimal.{Unsigned};
ghost use Rattle.plate_file.specs.Steps.{Fault};
ghost use Rattle.plate_file.specs.Streams.{count_in, word_in, longer};

use crate::hex::hex_word;
use crate::keywords::keyword_of;
use crate::problem::Problem;
use crate::reader::Reader;

fn word_of(field: &[u8]) -> Result<u16, Problem>
    ensures { result ≡ word_in field.now }
{
    hex_word(field).ok_or_else(|| match keyword_of(field) {
        Some(_) => Problem::TooFewWords,
        None => Problem::BadStreamWord,
    })
}

impl Reader<'_> {
    // Behind the word `dc` or `ac`.
    pub(crate) fn count(mut self) -> Result<usize, Problem>
        ensures count { IfOk result (λ n. Unsigned (field_in (unread self.entry)) (Ok n)) }
        ensures exact { result ≡ count_in (unread self.entry) }
    {
        let count = self.read()?;
        self.end_line(Problem::ExtraField)?;
        Ok(count)
    }

    // Adds the words of a line to `words`. `to_come` more are due at its start; the answer is how many are at its end.
    #[tactic(auto, using(crate::proofs::StreamWords::next_words))]
    pub(crate) fn add_words(
        mut self,
        words: &mut Vec<u16>,
        to_come: usize,
    ) -> Result<usize, Problem>
        ensures { MatchResult result (λ left. longer words.old.items to_come (fields_of (unread self.entry)) ≡ Ok (record { words = words.new.items; left = left })) (Fault (longer words.old.items to_come (fields_of (unread self.entry)))) }
    {
        // The draft's own count, and no index: it goes down word by word, and is the answer.
        let mut left = to_come;
        while let Some(field) = self.next_field() {
            if left == 0 {
                return Err(Problem::TooManyWords);
            }
            words.push(word_of(field)?)?;
            left -= 1;
        }
        Ok(left)
    }
}
