//! The domains of which names were answered, for admission.
use dispatch::is_failure;
use memory::Starved;
use std::alloc::Global;
use std::sync::atomic::{AtomicU64, Ordering};

// How many domains are kept at most: one for each number of sixteen bits.
const DOMAINS: usize = 65_536;

/// Domains of which a name was answered, by their hashes. Each has one place, and the last one that was answered stands
/// there.
#[derive(Drop)]
pub(crate) struct AnsweredDomains {
    places: Vec<AtomicU64>,
}

impl AnsweredDomains {
    /// None yet.
    pub fn new(alloc: Global) -> Result<AnsweredDomains, Starved> {
        let mut places = Vec::with_capacity(alloc, DOMAINS)?;
        for _ in 0..DOMAINS {
            places.push(AtomicU64::new(0))?;
        }
        Ok(AnsweredDomains { places })
    }

    /// Whether a name of this domain was answered, as far as that is kept.
    pub fn has(&self, domain: u64) -> bool {
        match self.place(domain) {
            Some(place) => place.load(Ordering::SeqCst) == domain,
            None => false,
        }
    }

    /// A name of this domain had that reply after servers were asked. Where it has RCODE 0 the domain is noted, and where
    /// it is a failure no longer. Any other shows nothing, since anyone can make names that do not exist.
    pub fn learn(&self, domain: u64, reply: &[u8]) {
        let Some(place) = self.place(domain) else {
            return;
        };
        if is_failure(reply) {
            if place.load(Ordering::SeqCst) == domain {
                place.store(0, Ordering::SeqCst);
            }
        } else if has_no_error(reply) {
            place.store(domain, Ordering::SeqCst);
        }
    }

    // Where this domain stands, if it does.
    fn place(&self, domain: u64) -> Option<&AtomicU64> {
        let [_, _, _, _, _, _, high, low] = domain.to_be_bytes();
        self.places
            .get(usize::from(u16::from_be_bytes([high, low])))
    }
}

// Whether a reply has RCODE 0, the low half of its fourth byte (RFC 1035, section 4.1.1).
fn has_no_error(reply: &[u8]) -> bool {
    match reply.get(3) {
        Some(flags) => flags & 15 == 0,
        None => false,
    }
}
