//! Which addresses of servers are asked: none of the blocks that no server of the Internet has, unless a hint has one.
ghost use Rattle.std.specs.Prelude.{◌≡◌, ◌↔◌, IsTrue};
ghost use Rattle.dispatch.specs.Blocks.{block_in, reaches, HasHintIn, IsReach};

use rdata::Addr;

/// A block of addresses, by its first byte (RFC 6890).
#[derive(Clone, Copy, Debug, PartialEq, Eq)]
pub enum Block {
    /// Any that servers of the Internet have.
    Public,
    /// 0/8, this network.
    ThisNetwork,
    /// 127/8, this host.
    Loopback,
    /// 224/3, multicast and what is above it.
    Multicast,
}

/// The block in which an address lies.
pub fn block_of(address: Addr) -> Block
    ensures { result ≡ block_in address.0 }
{
    let [first, _, _, _] = address.0;
    if first == 0 {
        Block::ThisNetwork
    } else if first == 127 {
        Block::Loopback
    } else if first >= 224 {
        Block::Multicast
    } else {
        Block::Public
    }
}

/// In which blocks servers are asked beside the public ones.
#[derive(Clone, Copy, Debug, PartialEq, Eq)]
pub struct Reach {
    /// Whether in 0/8.
    pub this_network: bool,
    /// Whether in 127/8.
    pub loopback: bool,
    /// Whether in 224/3.
    pub multicast: bool,
}

impl Reach {
    /// The blocks in which one of these hints lies.
    pub fn of_hints(hints: &[Addr]) -> Reach
        ensures { IsReach hints.now result }
    {
        Reach {
            this_network: has_hint_in(hints, Block::ThisNetwork),
            loopback: has_hint_in(hints, Block::Loopback),
            multicast: has_hint_in(hints, Block::Multicast),
        }
    }

    /// Whether a server at this address is asked.
    pub fn has(self, address: Addr) -> bool
        ensures { result ≡ reaches self (block_in address.0) }
    {
        match block_of(address) {
            Block::Public => true,
            Block::ThisNetwork => self.this_network,
            Block::Loopback => self.loopback,
            Block::Multicast => self.multicast,
        }
    }
}

// Whether one of the hints lies in this block.
fn has_hint_in(hints: &[Addr], block: Block) -> bool
    ensures { IsTrue result ↔ HasHintIn hints.now block }
{
    hints.iter().any(|hint| block_of(*hint) == block)
}
