// A few octets, held by value.
ghost use Rattle.std.specs.Prelude.{◌≡◌, ◌<◌, ◌≤◌, length, Some};
ghost use Rattle.std.specs.Option.{option_map};
ghost use Rattle.few.specs.Few.{held};
ghost use Rattle.vocabulary.specs.Hex.{hex, hex_digit};

use few::Few;
use std::fmt;

// 1 to N octets. What it means is the list of them.
#[derive(Clone, Copy)]
pub struct Octets<const N: usize> {
    octets: Few<u8, N>,
    ghost some: { 1 ≤ length (held octets) },
}

// What a carrier carries: 1 to 16 octets.
pub type Frame = Octets<16>;

// Not 1 to N octets.
#[derive(Clone, Copy, PartialEq, Eq, Debug)]
pub struct WrongSize;

// These octets, if there are 1 to N of them.
impl<'a, const N: usize> TryFrom<&'a [u8]> for Octets<N> {
    ghost use Rattle.vocabulary.specs.Octets.{Sized};

    type Error = WrongSize;

    ghost try_from_gives = { λ octets r. Sized N octets.now r };

    fn try_from(octets: &'a [u8]) -> Result<Octets<N>, WrongSize> {
        if octets.is_empty() {
            return Err(WrongSize);
        }
        let mut held = Few::new();
        held.fill(octets).map_err(|_| WrongSize)?;
        Ok(Octets { octets: held })
    }
}

impl<const N: usize> Octets<N> {
    ghost use Rattle.vocabulary.specs.Octets.{octets_of};

    // How many they are.
    pub fn len(&self) -> usize
        ensures { result ≡ length (octets_of self.now) }
    {
        self.octets.len()
    }

    // The octets.
    pub fn as_slice(&self) -> &[u8]
        ensures { result.now ≡ octets_of self.now }
    {
        self.octets.as_slice()
    }
}

// A hexadecimal digit, in capitals. `{:02X}` for each octet takes half as long again for a program that prints many.
fn hex_digit(value: u8) -> char
    requires { value < 16 }
    ensures { result ≡ hex_digit value }
{
    if value < 10 {
        char::from(b'0' + value)
    } else {
        char::from(b'A' - 10 + value)
    }
}

// Two digits for each octet, unspaced.
impl<const N: usize> fmt::Display for Octets<N> {
    ghost use Rattle.vocabulary.specs.Octets.{octets_of};

    ghost output = { λ o. Some (hex (octets_of o)) };

    fn fmt<W: fmt::Write>(&self, f: &mut fmt::Formatter<W>) -> fmt::Result {
        for octet in self.as_slice() {
            let high = hex_digit(*octet / 16);
            let low = hex_digit(*octet % 16);
            write!(f, "{high}{low}")?;
        }
        Ok(())
    }
}
