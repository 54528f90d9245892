// What one field says.
ghost use Rattle.std.specs.Prelude.{◌≡◌, List, ℕ, Some, Ok, Result, IfOk};
ghost use Rattle.plate_file.specs.declared.problem.Problem.{Problem};
ghost use Rattle.plate_file.specs.declared.problem.Problem.TheVariants.{UnknownSampleType, UnknownScheme};
ghost use Rattle.plate_file.specs.Decimal.{Unsigned, Signed, unsigned_in, signed_in};
ghost use Rattle.plate_file.specs.Steps.{numbered, found};
ghost use Rattle.plate_file.specs.Lines.{SlotIn, slot_in};
ghost use Rattle.plate_file.specs.Words.{TypeWord, SchemeWord, meant, types, schemes};

use crate::keywords::{sample_type_of, scheme_of};
use crate::numbers::{signed, unsigned};
use crate::problem::Problem;
use channel_rules::{CompressorScheme, SampleType};

// A value that one field of a line writes.
pub(crate) trait Field: Sized {
    // The value that a field writes, or the fault.
    ghost value_in: { List ℕ → Result Self Problem };

    // Whether a field writes a value.
    ghost writes: { List ℕ → Self → Type 0 };

    fn from_field(field: &[u8]) -> Result<Self, Problem>
        ensures value { IfOk result (writes field.now) }
        ensures exact { result ≡ value_in field.now };
}

impl Field for usize {
    ghost value_in = { λ field. numbered (unsigned_in field) };

    ghost writes = { λ field n. Unsigned field (Ok n) };

    fn from_field(field: &[u8]) -> Result<usize, Problem> {
        Ok(unsigned(field)?)
    }
}

impl Field for i32 {
    ghost value_in = { λ field. numbered (signed_in field) };

    ghost writes = { λ field n. Signed field (Ok n) };

    fn from_field(field: &[u8]) -> Result<i32, Problem> {
        Ok(signed(field)?)
    }
}

// A slot.
impl Field for Option<usize> {
    ghost value_in = { slot_in };

    ghost writes = { SlotIn };

    fn from_field(field: &[u8]) -> Result<Option<usize>, Problem> {
        match field {
            b"-" => Ok(None),
            _ => Ok(Some(unsigned(field)?)),
        }
    }
}

// This impl and the next differ in the table, the fault and the relation: nothing is left to share.
impl Field for SampleType {
    ghost value_in = { λ field. found UnknownSampleType (meant types field) };

    ghost writes = { λ field found. TypeWord field (Some found) };

    fn from_field(field: &[u8]) -> Result<SampleType, Problem> {
        sample_type_of(field).ok_or(Problem::UnknownSampleType)
    }
}

impl Field for CompressorScheme {
    ghost value_in = { λ field. found UnknownScheme (meant schemes field) };

    ghost writes = { λ field found. SchemeWord field (Some found) };

    fn from_field(field: &[u8]) -> Result<CompressorScheme, Problem> {
        scheme_of(field).ok_or(Problem::UnknownScheme)
    }
}
