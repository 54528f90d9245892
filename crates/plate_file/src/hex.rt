// Lower-case hexadecimal digits.
ghost use Rattle.std.specs.Prelude.{◌≡◌, [], ◌∷◌};
ghost use Rattle.plate_file.specs.Hex.{hex_digit, hex_pair, hex_word};

// By hand, since std's `to_digit` takes capitals too.
fn hex_digit(byte: u8) -> Option<u8>
    ensures { result ≡ hex_digit byte }
{
    match byte {
        b'0'..=b'9' => Some(byte - b'0'),
        b'a'..=b'f' => Some(byte - b'a' + 10),
        _ => None,
    }
}

// The byte that two digits write.
pub(crate) fn hex_pair(high: u8, low: u8) -> Option<u8>
    ensures { result ≡ hex_pair (high ∷ low ∷ []) }
{
    let high = hex_digit(high)?;
    let low = hex_digit(low)?;
    Some(high * 16 + low)
}

// The word that a field of four digits writes.
#[tactic(auto, using(crate::proofs::HexPairs::no_low))]
pub(crate) fn hex_word(field: &[u8]) -> Option<u16>
    ensures { result ≡ hex_word field.now }
{
    let [a, b, c, d] = field else {
        return None;
    };
    let high = hex_pair(*a, *b)?;
    let low = hex_pair(*c, *d)?;
    Some(u16::from_be_bytes([high, low]))
}
