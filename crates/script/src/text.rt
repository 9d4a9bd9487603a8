// Numbers and octets as text.
ghost use Rattle.std.specs.Prelude.{◌≡◌, Some, None};
ghost use Rattle.std.specs.Option.{option_map};
ghost use Rattle.vocabulary.specs.Octets.{octets_of};
ghost use Rattle.script.specs.Text.{add_digit, number, hex_value, octet as octet_of};
ghost use Rattle.script.specs.Grammar.{sized_octets};

use few::Few;
use vocabulary::octets::Octets;

// A number with a digit more, unless the character is no digit or the number grows too large.
fn add_digit(value: u16, c: u8) -> Option<u16>
    ensures { result ≡ add_digit value c }
{
    let digit = char::from(c).to_digit(10)?;
    u16::try_from(10 * u32::from(value) + digit).ok()
}

// A number in digits, 0 to 65535.
pub fn read_number(text: &[u8]) -> Option<u16>
    ensures { result ≡ number text.now }
{
    if text.is_empty() {
        return None;
    }
    text.iter().try_fold(0, |value, c| add_digit(value, *c))
}

// The value of a hexadecimal digit, in capitals; `to_digit` would take small letters too.
fn hex_value(c: u8) -> Option<u8>
    ensures { result ≡ hex_value c }
{
    match c {
        b'0'..=b'9' => Some(c - b'0'),
        b'A'..=b'F' => Some(c - b'A' + 10),
        _ => None,
    }
}

// An octet of two hexadecimal digits.
fn octet(high: u8, low: u8) -> Option<u8>
    ensures { result ≡ octet_of high low }
{
    let high = hex_value(high)?;
    let low = hex_value(low)?;
    Some(16 * high + low)
}

// Octets in hexadecimal digits, 1 to 255 of them.
pub fn read_octets(text: &[u8]) -> Option<Octets<255>>
    ensures { option_map octets_of result ≡ sized_octets text.now }
{
    let (pairs, rest) = text.as_chunks::<2>();
    if !rest.is_empty() {
        return None;
    }
    let mut read = Few::<u8, 255>::new();
    for [high, low] in pairs {
        read.push(octet(*high, *low)?).ok()?;
    }
    Octets::try_from(read.as_slice()).ok()
}
