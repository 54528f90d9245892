// The fields of a rectangle, a channel and a rule.
ghost use Rattle.std.specs.Prelude.{◌≡◌, ℕ, List, Result, IfOk, MatchResult};
ghost use Rattle.channel_rules.specs.Names.{Inside};
ghost use Rattle.channel_rules.specs.declared.records.Part.{Part};
ghost use Rattle.plate_file.specs.declared.problem.Problem.{Problem};
ghost use Rattle.plate_file.specs.Headings.{BehindName, named_in};
ghost use Rattle.plate_file.specs.Steps.{present, Fault};
ghost use Rattle.plate_file.specs.Lines.{RectangleIn, ChannelIn, RuleIn, FlagIn, flag_next, rectangle_in, channel_in, rule_in};
ghost use Rattle.plate_file.specs.Reading.{field_in, after_field, unread};

use crate::field::Field;
use crate::problem::Problem;
use crate::reader::Reader;
use channel_rules::{ChannelDescription, IntegerBounds, Part, Rule};

impl Reader<'_> {
    // The value that the next field writes, which has to be there.
    pub(crate) fn read<T: Field>(&mut self) -> Result<T, Problem>
        ensures value { IfOk result (T.writes (field_in (unread self.old))) }
        ensures after { unread self.new ≡ after_field (unread self.old) }
        ensures exact { result ≡ present T.value_in (field_in (unread self.old)) }
    {
        T::from_field(self.required_field()?)
    }

    // Whether the line ends with `word`; nothing else may stand there.
    fn ends_with(mut self, word: &[u8]) -> Result<bool, Problem>
        ensures value { IfOk result (FlagIn (field_in (unread self.entry)) word.now) }
        ensures exact { result ≡ flag_next word.now (unread self.entry) }
    {
        let Some(field) = self.next_field() else {
            return Ok(false);
        };
        if field != word {
            return Err(Problem::ExtraField);
        }
        self.end_line(Problem::ExtraField)?;
        Ok(true)
    }

    pub(crate) fn rectangle(mut self) -> Result<IntegerBounds, Problem>
        ensures value { IfOk result (RectangleIn (unread self.entry)) }
        ensures exact { result ≡ rectangle_in (unread self.entry) }
    {
        let left = self.read()?;
        let top = self.read()?;
        let width = self.read()?;
        let height = self.read()?;
        self.end_line(Problem::ExtraField)?;
        Ok(IntegerBounds {
            left,
            top,
            width,
            height,
        })
    }

    // The record that a line writes behind its name, and the text with that name behind it.
    pub(crate) fn named<T: Record>(self, text: Vec<u8>) -> Result<(T, Vec<u8>), Problem>
        ensures inside { IfOk result (λ found. Inside found.1.items (T.part found.0)) }
        ensures exact { MatchResult result (λ found. BehindName T.record_in (unread self.entry) text.items found.1.items found.0) (Fault (named_in T.record_in text.items (unread self.entry))) }
    {
        let (name, text, reader) = self.quoted(text)?;
        Ok((T::behind_name(reader, name)?, text))
    }
}

// What a line says behind a name: a channel, or a rule behind its suffix.
pub(crate) trait Record: Sized {
    // The part of the text that is its name.
    ghost part: { Self → Part };

    // The record that stands behind a name, or the fault.
    ghost record_in: { Part → List ℕ → Result Self Problem };

    // Whether the fields behind a name write a record.
    ghost writes: { List ℕ → Self → Type 0 };

    fn behind_name(reader: Reader<'_>, name: Part) -> Result<Self, Problem>
        ensures name { IfOk result (λ it. part it ≡ name) }
        ensures value { IfOk result (writes (unread reader.entry)) }
        ensures exact { result ≡ record_in name (unread reader.entry) };
}

impl Record for ChannelDescription {
    ghost part = { λ channel. channel.name };

    ghost record_in = { channel_in };

    ghost writes = { ChannelIn };

    fn behind_name(mut reader: Reader<'_>, name: Part) -> Result<ChannelDescription, Problem> {
        let sample_type = reader.read()?;
        let x_sampling = reader.read()?;
        let y_sampling = reader.read()?;
        let quantize_linearly = reader.ends_with(b"linear")?;
        Ok(ChannelDescription {
            name,
            sample_type,
            x_sampling,
            y_sampling,
            quantize_linearly,
        })
    }
}

impl Record for Rule {
    ghost part = { λ rule. rule.suffix };

    ghost record_in = { rule_in };

    ghost writes = { RuleIn };

    fn behind_name(mut reader: Reader<'_>, suffix: Part) -> Result<Rule, Problem> {
        let scheme = reader.read()?;
        let sample_type = reader.read()?;
        let csc_index = reader.read()?;
        let case_insensitive = reader.ends_with(b"ignore-case")?;
        Ok(Rule {
            suffix,
            scheme,
            sample_type,
            csc_index,
            case_insensitive,
        })
    }
}
