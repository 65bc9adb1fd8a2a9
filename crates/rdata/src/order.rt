//! An order of data, by type and then by the data, so that repeats are found in long lists. No RFC has it.

ghost use Rattle.std.specs.Prelude.{◌≡◌};
ghost use Rattle.std.proofs.Common.{refl};
ghost use Rattle.std.specs.Ordering.{as_partial_cmp};
ghost use Rattle.rdata.specs.Kept.{datum};
ghost use Rattle.rdata.specs.Order.{numbers_of, authority_cmp, service_cmp, alike_cmp, same_kept, same_kept_equiv, same_kept_per, kept_cmp, kept_cmp_total, kept_cmp_ties, kept_cmp_partial};

use crate::data::RData;
use crate::soa::Soa;
use crate::srv::Srv;
use std::alloc::Allocator;
use std::cmp::{Eq, Ordering};

fn numbers<A: Allocator>(soa: &Soa<A>) -> [u32; 5]
    ensures { result ≡ numbers_of soa.now }
{
    [soa.serial, soa.refresh, soa.retry, soa.expire, soa.minimum]
}

fn cmp_soa<A: Allocator>(a: &Soa<A>, b: &Soa<A>) -> Ordering
    ensures { result ≡ authority_cmp a.now b.now }
{
    let primaries = a.primary.wire().cmp(b.primary.wire());
    let mailboxes = a.mailbox.wire().cmp(b.mailbox.wire());
    primaries.then(mailboxes).then(numbers(a).cmp(&numbers(b)))
}

fn cmp_srv<A: Allocator>(a: &Srv<A>, b: &Srv<A>) -> Ordering
    ensures { result ≡ service_cmp a.now b.now }
{
    let numbers = [a.priority, a.weight, a.port].cmp(&[b.priority, b.weight, b.port]);
    numbers.then(a.target.wire().cmp(b.target.wire()))
}

// The order of data of one type.
fn cmp_alike<A: Allocator>(a: &RData<A>, b: &RData<A>) -> Ordering
    ensures { result ≡ alike_cmp (datum a.now) (datum b.now) }
{
    match (a, b) {
        (RData::A(a), RData::A(b)) => a.0.cmp(&b.0),
        (RData::Ns(a), RData::Ns(b)) => a.wire().cmp(b.wire()),
        (RData::Cname(a), RData::Cname(b)) => a.wire().cmp(b.wire()),
        (RData::Soa(a), RData::Soa(b)) => cmp_soa(a, b),
        (RData::Ptr(a), RData::Ptr(b)) => a.wire().cmp(b.wire()),
        (RData::Mx(p, a), RData::Mx(q, b)) => p.cmp(q).then(a.wire().cmp(b.wire())),
        (RData::Txt(a), RData::Txt(b)) => a.wire().cmp(b.wire()),
        (RData::Aaaa(a), RData::Aaaa(b)) => a.cmp(b),
        (RData::Srv(a), RData::Srv(b)) => cmp_srv(a, b),
        _ => Ordering::Equal,
    }
}

impl<A: Allocator> PartialEq for RData<A> {
    ghost eq = { same_kept };

    ghost laws = { same_kept_per };

    fn eq(&self, other: &RData<A>) -> bool {
        self.is_same(other)
    }
}

impl<A: Allocator> Eq for RData<A> {
    ghost laws = { same_kept_equiv };
}

impl<A: Allocator> PartialOrd for RData<A> {
    ghost partial_cmp = { as_partial_cmp kept_cmp };

    ghost laws = { kept_cmp_partial };

    fn partial_cmp(&self, other: &RData<A>) -> Option<Ordering> {
        Some(self.cmp(other))
    }
}

impl<A: Allocator> Ord for RData<A> {
    ghost cmp = { kept_cmp };

    ghost total = { kept_cmp_total };

    ghost matches_partial_cmp = { λ _ _. refl };

    ghost matches_eq = { kept_cmp_ties };

    fn cmp(&self, other: &RData<A>) -> Ordering {
        let kinds = self.kind().number().cmp(&other.kind().number());
        kinds.then(cmp_alike(self, other))
    }
}
