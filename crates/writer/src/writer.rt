// A message that is being written to a lent buffer.
ghost use Rattle.std.specs.Prelude.{◌≡◌, ◌+◌, ◌-◌, ◌*◌, ◌^◌, ◌<◌, ◌≤◌, min, true, length, take, drop};
ghost use Rattle.writer.specs.Drafts.{are_octets};

use vocabulary::trip::TripNumber;

mod filling;
pub mod ops;
mod packets;

// The whole octets of the packets stand in the buffer from its third octet on, `full` of them, and the first `count`
// bits of the next octet wait, as the number `waiting`. The octets are written into a lent buffer, so their number stands beside it.
#[derive(Drop)]
pub struct Writer<'a> {
    octets: &'a mut [u8],
    sender: u8,
    trip: TripNumber,
    full: usize,
    waiting: u8,
    count: usize,
    ghost lies: { 8 * full + count ≤ 8 * (min (length octets.now) 255 - 2) },
    ghost few: { count < 8 },
    ghost fits: { waiting < 2 ^ count },
    ghost octal: { are_octets (take full (drop 2 octets.now)) ≡ true },
}
