//! The numbers of clients who ask in datagrams: each is the sender itself, so that nothing is kept of a sender while
//! its query is open, and a reply can go to nobody else.
ghost use Rattle.std.specs.Prelude.{◌≡◌};
ghost use Rattle.dispatch.specs.Senders.{client_number, sender_in};

use events::Endpoint;
use rdata::Addr;

/// The number of the client at this address and port.
pub fn client_of(sender: Endpoint) -> u64
    ensures { result ≡ client_number sender }
{
    let [a, b, c, d] = sender.address.0;
    let [high, low] = sender.port.to_be_bytes();
    u64::from_be_bytes([0, 0, a, b, c, d, high, low])
}

/// Where the client of this number is.
pub fn sender_of(client: u64) -> Endpoint
    ensures { result ≡ sender_in client }
{
    let [_, _, a, b, c, d, high, low] = client.to_be_bytes();
    Endpoint {
        address: Addr([a, b, c, d]),
        port: u16::from_be_bytes([high, low]),
    }
}

/// A reply goes to the address and the port from which its query came.
pub fn replies_go_back(sender: Endpoint)
    ensures { sender_in (client_number sender) ≡ sender }
{
    let _ = sender.port;
}
