//! The places of clients' streams: their numbers, as whose their questions count, and when one has to give way.
ghost use Rattle.std.specs.Prelude.{◌≡◌, ◌<◌};
ghost use Rattle.dispatch.specs.Places.{number_at, place_in, client_in, silence_of};
ghost use Rattle.dispatch.specs.Senders.{sender_in};

use rdata::Addr;

/// The number of the stream that came as this one from this address and has this place: four bytes of the address,
/// three of the count, and the place.
pub fn stream_number(address: Addr, serial: u64, place: u8) -> u64
    ensures { result ≡ number_at address.0 serial place }
{
    let [a, b, c, d] = address.0;
    let [_, _, _, _, _, x, y, z] = serial.to_be_bytes();
    u64::from_be_bytes([a, b, c, d, x, y, z, place])
}

/// The place of the stream of this number.
pub fn place_of(number: u64) -> u8
    ensures { result ≡ place_in number }
{
    let [_, _, _, _, _, _, _, place] = number.to_be_bytes();
    place
}

/// As whose the questions of the stream of this number count: a client at its address, the place for a port.
pub fn stream_client(number: u64) -> u64
    ensures { result ≡ client_in number }
{
    let [a, b, c, d, _, _, _, place] = number.to_be_bytes();
    u64::from_be_bytes([0, 0, a, b, c, d, 0, place])
}

/// A stream has the place, and its questions count as those of the address, that its number was made with.
pub fn places_are_kept(address: Addr, serial: u64, place: u8)
    ensures place { place_in (number_at address.0 serial place) ≡ place }
    ensures address { (sender_in (client_in (number_at address.0 serial place))).address ≡ address }
{
    let _ = (address, serial, place);
}

/// For how long, in milliseconds, a stream may be silent before another takes its place, where all of so many places
/// are taken: the less the more places there are, and longer while replies are awaited.
pub fn silence_before_yielding(places: u16, awaits: bool) -> u64
    ensures { result ≡ silence_of places awaits }
{
    let shares = u64::from(places).max(1);
    if awaits {
        (10_000 / shares).max(1_000)
    } else {
        3_000 / shares
    }
}
