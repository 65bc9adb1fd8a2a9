//! RDATA of the nine served types.
ghost use Rattle.std.specs.Prelude.{◌≡◌};
ghost use Rattle.rdata.specs.Data.{type_of, same_data};
ghost use Rattle.rdata.specs.Kept.{datum};
ghost use Rattle.rdata.specs.Types.{type_number};

use crate::addr::Addr;
use crate::rtype::RType;
use crate::soa::Soa;
use crate::srv::Srv;
use crate::texts::Texts;
use dname::Name;
use memory::Heap;
use std::alloc::{AllocError, Allocator, Global};

/// RDATA of the served types (RFC 1035, section 3.3; AAAA: RFC 3596, section 2.2; SRV: RFC 2782).
pub enum RData<A: Allocator = Global> {
    /// A host's IPv4 address (RFC 1035, section 3.4.1).
    A(Addr),
    /// A host that is a name server of the owner's zone (section 3.3.11).
    Ns(Name<A>),
    /// The canonical name of the owner, which is an alias (section 3.3.1).
    Cname(Name<A>),
    /// The start of a zone of authority (section 3.3.13). Boxed, as the data of a service are: the others are short.
    Soa(Box<Soa<A>, A>),
    /// The name of another place in the tree of names (section 3.3.12).
    Ptr(Name<A>),
    /// A mail exchange: its preference, the lowest first, and its host (section 3.3.9).
    Mx(u16, Name<A>),
    /// One character-string or more (section 3.3.14).
    Txt(Texts<A>),
    /// A host's IPv6 address, its 16 bytes as in messages (RFC 3596, section 2.2).
    Aaaa([u8; 16]),
    /// Where a service is offered (RFC 2782).
    Srv(Box<Srv<A>, A>),
}

// By hand, so that each drop of a record calls this. A derived drop is written out, nine ways, at each exit of each
// function that holds a record, which makes their proofs many times as long.
impl<A: Allocator> Drop for RData<A> {
    fn drop(self) {
        match self {
            RData::A(_) | RData::Aaaa(_) => {}
            RData::Ns(name) | RData::Cname(name) | RData::Ptr(name) | RData::Mx(_, name) => drop(
                name,
            ),
            RData::Soa(soa) => drop(soa),
            RData::Txt(texts) => drop(texts),
            RData::Srv(srv) => drop(srv),
        }
    }
}

impl<A: Allocator> RData<A> {
    /// Its type: of `RData::A` it is `RType::A`.
    pub fn kind(&self) -> RType
        ensures { type_number result ≡ type_of (datum self.now) }
    {
        match self {
            RData::A(_) => RType::A,
            RData::Ns(_) => RType::Ns,
            RData::Cname(_) => RType::Cname,
            RData::Soa(_) => RType::Soa,
            RData::Ptr(_) => RType::Ptr,
            RData::Mx(_, _) => RType::Mx,
            RData::Txt(_) => RType::Txt,
            RData::Aaaa(_) => RType::Aaaa,
            RData::Srv(_) => RType::Srv,
        }
    }
}

impl<A: Heap> Clone for RData<A> {
    ghost use Rattle.std.specs.Prelude.{◌≡◌};
    ghost use Rattle.rdata.specs.Kept.{datum};

    ghost is_clone = { λ x y. datum y ≡ datum x };

    fn clone(&self) -> Result<RData<A>, AllocError> {
        match self {
            RData::A(addr) => Ok(RData::A(*addr)),
            RData::Ns(name) => Ok(RData::Ns(name.clone()?)),
            RData::Cname(name) => Ok(RData::Cname(name.clone()?)),
            RData::Soa(soa) => Ok(RData::Soa(Box::new(soa.primary.allocator(), (**soa).clone()?)?)),
            RData::Ptr(name) => Ok(RData::Ptr(name.clone()?)),
            RData::Mx(preference, name) => Ok(RData::Mx(*preference, name.clone()?)),
            RData::Txt(texts) => Ok(RData::Txt(texts.clone()?)),
            RData::Aaaa(bytes) => Ok(RData::Aaaa(*bytes)),
            RData::Srv(srv) => Ok(RData::Srv(Box::new(srv.target.allocator(), (**srv).clone()?)?)),
        }
    }
}

impl<A: Allocator> RData<A> {
    /// Whether these are the same data: two NS of `a.example` are, an NS and a PTR of it are not.
    pub fn is_same(&self, other: &RData<A>) -> bool
        ensures { result ≡ same_data (datum self.now) (datum other.now) }
    {
        match (self, other) {
            (RData::A(a), RData::A(b)) => a.0 == b.0,
            (RData::Ns(a), RData::Ns(b)) => a == b,
            (RData::Cname(a), RData::Cname(b)) => a == b,
            (RData::Soa(a), RData::Soa(b)) => a.is_same(b),
            (RData::Ptr(a), RData::Ptr(b)) => a == b,
            (RData::Mx(p, a), RData::Mx(q, b)) => *p == *q && a == b,
            (RData::Txt(a), RData::Txt(b)) => a.is_same(b),
            (RData::Aaaa(a), RData::Aaaa(b)) => a == b,
            (RData::Srv(a), RData::Srv(b)) => a.is_same(b),
            _ => false,
        }
    }
}
