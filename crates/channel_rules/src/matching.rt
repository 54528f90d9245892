// When a rule matches a channel.
ghost use Rattle.std.specs.Prelude.{◌≡◌};
ghost use Rattle.channel_rules.specs.Names.{Inside};
ghost use Rattle.channel_rules.specs.Rules.{matched};

use crate::records::{Rule, SampleType};

impl Rule {
    pub(crate) fn matches(&self, text: &[u8], suffix: &[u8], sample_type: SampleType) -> bool
        requires { Inside text.now self.now.suffix }
        ensures { result ≡ matched text.now suffix.now sample_type self.now }
    {
        let own = self.suffix.of(text);
        self.sample_type == sample_type
            && (if self.case_insensitive {
                suffix.eq_ignore_ascii_case(own)
            } else {
                suffix == own
            })
    }
}
