// Goes through the bytes of a line, field by field.
ghost use Rattle.std.specs.Prelude.{◌≡◌, ◌<◌, length, IfOk, MatchOption, MatchResult, OnSome};
ghost use Rattle.std.specs.List.{prefix_len};
ghost use Rattle.plate_file.specs.Reading.{in_run, front, past, field_in, after_field, unread, ahead};
ghost use Rattle.plate_file.specs.Steps.{ended};
ghost use Rattle.plate_file.specs.File.{first_in};

use crate::problem::Problem;

// A sort of bytes that are taken together. No closures, since the definitions name each sort, and
// each call would owe what its closure tests.
#[derive(Clone, Copy)]
pub(crate) enum Run {
    Blanks,
    Field,
    Letters,
    Digits,
}

impl Run {
    fn takes(self, byte: u8) -> bool
        ensures { result ≡ in_run self byte }
    {
        match self {
            Run::Blanks => matches!(byte, b' ' | b'\t'),
            Run::Field => !matches!(byte, b' ' | b'\t' | b'\n'),
            Run::Letters => byte != b'"',
            Run::Digits => byte.is_ascii_digit(),
        }
    }

    // How many bytes at the front are of this sort.
    pub(crate) fn count(self, bytes: &[u8]) -> usize
        ensures { result ≡ prefix_len (in_run self) bytes.now }
    {
        bytes.iter().take_while(|byte| self.takes(**byte)).count()
    }
}

// What is left of a line.
#[derive(Drop)]
pub(crate) struct Reader<'a> {
    pub(crate) left: &'a [u8],
}

// A call that leaves a reader behind says itself what is left: no invariant speaks of before and after.
impl<'a> Reader<'a> {
    // Takes the first line, which is the same in every file.
    pub(crate) fn first_line(self) -> Result<(), Problem>
        ensures { result ≡ first_in (unread self.entry) }
    {
        let left = self
            .left
            .strip_prefix(b"plate 1")
            .ok_or(Problem::NotAPlate)?;
        Reader { left }.end_line(Problem::NotAPlate)
    }

    // Takes the bytes at the front that are of one sort.
    pub(crate) fn pass(&mut self, run: Run) -> &'a [u8]
        ensures front { result.now ≡ front run (unread self.old) }
        ensures after { unread self.new ≡ past run (unread self.old) }
    {
        let (front, rest) = self.left.split_at(run.count(self.left));
        self.left = rest;
        front
    }

    // The next field; it is empty at the line's end.
    pub(crate) fn field(&mut self) -> &'a [u8]
        ensures value { result.now ≡ field_in (unread self.old) }
        ensures after { unread self.new ≡ after_field (unread self.old) }
    {
        self.pass(Run::Blanks);
        self.pass(Run::Field)
    }

    // The next field, if there is one.
    pub(crate) fn next_field(&mut self) -> Option<&'a [u8]>
        ensures value { MatchOption result (length (field_in (unread self.old)) ≡ 0) (λ field. (field.now ≡ field_in (unread self.old)) × (0 < length (field_in (unread self.old)))) }
        ensures after { unread self.new ≡ after_field (unread self.old) }
        ensures goes { OnSome result (ahead self.new < ahead self.old) }
    {
        let field = self.field();
        if field.is_empty() { None } else { Some(field) }
    }

    // The next field, which has to be there.
    pub(crate) fn required_field(&mut self) -> Result<&'a [u8], Problem>
        ensures value { IfOk result (λ field. field.now ≡ field_in (unread self.old)) }
        ensures exact { MatchResult result (λ field. (field.now ≡ field_in (unread self.old)) × (0 < length (field_in (unread self.old)))) (λ problem. (length (field_in (unread self.old)) ≡ 0) × (problem ≡ Problem.MissingField)) }
        ensures after { unread self.new ≡ after_field (unread self.old) }
    {
        self.next_field().ok_or(Problem::MissingField)
    }

    // Refuses with `problem` what stands between here and the line's end.
    pub(crate) fn end_line(mut self, problem: Problem) -> Result<(), Problem>
        ensures { result ≡ ended problem (field_in (unread self.entry)) }
    {
        match self.next_field() {
            None => Ok(()),
            Some(_) => Err(problem),
        }
    }
}
