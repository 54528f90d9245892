// What stands before the streams.
ghost use Rattle.std.specs.Prelude.{◌≡◌};
ghost use Rattle.plate_file.specs.Reading.{unread};
ghost use Rattle.plate_file.specs.Headings.{heading, no_heading, with_rectangle, with_channel, with_rule, Says};

use crate::plate::{Header, Records};
use crate::problem::Problem;
use crate::reader::Reader;
use std::alloc::Global;

impl Header {
    pub(crate) fn new(heap: Global) -> Header
        ensures { heading result ≡ no_heading }
    {
        let records = Records {
            text: Vec::new(heap),
            channels: Vec::new(heap),
            rules: Vec::new(heap),
        };
        Header {
            records,
            rectangle: None,
        }
    }

    // Behind the word `rectangle`.
    pub(crate) fn with_rectangle(self, reader: Reader<'_>) -> Result<Header, Problem>
        ensures { Says (with_rectangle (heading self) (unread reader.entry)) result }
    {
        if self.rectangle.is_some() {
            return Err(Problem::SecondRectangle);
        }
        let rectangle = reader.rectangle()?;
        Ok(Header {
            rectangle: Some(rectangle),
            ..self
        })
    }

    // Behind the word `channel`.
    pub(crate) fn with_channel(self, reader: Reader<'_>) -> Result<Header, Problem>
        ensures { Says (with_channel (heading self) (unread reader.entry)) result }
    {
        let Records {
            text,
            mut channels,
            rules,
        } = self.records;
        let (channel, text) = reader.named(text)?;
        channels.push(channel)?;
        let records = Records {
            text,
            channels,
            rules,
        };
        Ok(Header { records, ..self })
    }

    // Behind the word `rule`. Only the list that grows is another, and to choose it would be longer.
    pub(crate) fn with_rule(self, reader: Reader<'_>) -> Result<Header, Problem>
        ensures { Says (with_rule (heading self) (unread reader.entry)) result }
    {
        let Records {
            text,
            channels,
            mut rules,
        } = self.records;
        let (rule, text) = reader.named(text)?;
        rules.push(rule)?;
        let records = Records {
            text,
            channels,
            rules,
        };
        Ok(Header { records, ..self })
    }
}
