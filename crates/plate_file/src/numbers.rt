// Decimal numbers.
ghost use Rattle.std.specs.Prelude.{◌≡◌, ◌+◌, ◌*◌, ◌^◌, ◌<◌, Decides};
ghost use Rattle.std.specs.Option.{SomeIff};
ghost use Rattle.plate_file.specs.declared.numbers.NumberFault.TheVariants.{OutOfRange};
ghost use Rattle.plate_file.specs.Decimal.{Numeral, Unsigned, Signed, is_numeral, unsigned_in, signed_in};

use crate::reader::Run;
use std::num::TryFromIntError;

#[derive(Clone, Copy, PartialEq, Eq, Debug)]
pub enum NumberFault {
    NotANumber,
    OutOfRange,
}

impl From<TryFromIntError> for NumberFault {
    ghost from_gives = { λ _ r. r ≡ OutOfRange };

    fn from(_e: TryFromIntError) -> NumberFault {
        NumberFault::OutOfRange
    }
}

fn is_numeral(field: &[u8]) -> bool
    ensures digits { Decides result (Numeral field.now) }
    ensures exact { result ≡ is_numeral field.now }
{
    !field.is_empty() && Run::Digits.count(field) == field.len()
}

// `value` with one more digit at its end.
fn appended(value: usize, digit: u8) -> Option<usize>
    ensures { SomeIff result (value * 10 + digit < 2 ^ 64) (value * 10 + digit) }
{
    value.checked_mul(10)?.checked_add(usize::from(digit))
}

pub(crate) fn unsigned(field: &[u8]) -> Result<usize, NumberFault>
    ensures reads { Unsigned field.now result }
    ensures exact { result ≡ unsigned_in field.now }
{
    if !is_numeral(field) {
        return Err(NumberFault::NotANumber);
    }
    let mut value = 0;
    for byte in field {
        value = appended(value, *byte - b'0').ok_or(NumberFault::OutOfRange)?;
    }
    Ok(value)
}

pub(crate) fn signed(field: &[u8]) -> Result<i32, NumberFault>
    ensures reads { Signed field.now result }
    ensures exact { result ≡ signed_in field.now }
{
    match field {
        [b'-', digits @ ..] => {
            let magnitude = i64::try_from(unsigned(digits)?)?;
            Ok(i32::try_from(-magnitude)?)
        }
        _ => Ok(i32::try_from(unsigned(field)?)?),
    }
}
