// What every carrier refuses.
ghost use Rattle.std.specs.Prelude.{◌≡◌};
ghost use Rattle.carrier.specs.Frames.{by_octets, to_frame};

use vocabulary::fault::{Fault, Layer, Refusal};
use vocabulary::octets::Frame;

// Not 1 to 16 octets.
pub const MISFIT: Fault = Fault {
    cause: Refusal::Misfit,
    place: 0,
    layer: Layer::Carrier,
};

// No place is free.
pub const FULL: Fault = Fault {
    cause: Refusal::Full,
    place: 0,
    layer: Layer::Carrier,
};

// Octets as a frame. A frame is 1 to 16 octets, and any others are refused.
pub fn to_frame(octets: &[u8]) -> Result<Frame, Fault>
    ensures { by_octets result ≡ to_frame octets.now }
{
    Frame::try_from(octets).map_err(|_| MISFIT)
}
