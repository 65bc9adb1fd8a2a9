//! Laws of the definitions that contracts cite: functions that do nothing, whose clauses are proved.

ghost use Rattle.std.specs.Prelude.{◌≡◌, ◌≢◌, ◌↔◌, ◌∷◌, ℕ, List, [], Some, None, true, Contains};
ghost use Rattle.std.specs.List.{list_any};
ghost use Rattle.dname.specs.Labels.{is_under, star, IsAtOrUnder};
ghost use Rattle.rdata.specs.Records.{Record};
ghost use Rattle.zone.specs.Zones.{Zone as ZoneSpec, At, IsCut, IsUncut, IsCutOver, Exists, IsEncloser, cname_type};
ghost use Rattle.zone.specs.Links.{Link, Found, Alias, NxDomain, IsSource, IsEmpty, IsLink};
ghost use Rattle.zone.specs.Look.{cut_of, exists, closest, link_by, local_by, denial_of};
ghost use Rattle.zone.specs.Referrals.{IsLocal};
ghost use Rattle.zone.specs.Faults.{fault_of};
ghost use Rattle.zone.specs.Ruled.{IsNamed, IsZone, HasSoaAtOrigin, HasOneSoa, HasOneTtl, HasOneAlias};
ghost use Rattle.zone.specs.Same.{SameLink};

use crate::zone::Zone;
use std::alloc::Allocator;

/// The search for a cut finds the one that a name is referred to, nearest to the origin, and none only
/// where none stands over the name (RFC 1034, section 4.3.2, step 3b).
pub fn cut_law()
    ensures over { (z : ZoneSpec) (q c : List (List ℕ)) → IsNamed z → (cut_of z q ≡ Some c) ↔ IsCutOver z q c }
    ensures uncut { (z : ZoneSpec) (q : List (List ℕ)) → IsNamed z → (cut_of z q ≡ None) ↔ IsUncut z q }
{}

/// The test for the names that exist is exact: those that an owner, not beneath a cut, is at or under (RFC 4592,
/// section 2.2.2). Where no cut stands over the name all owners count.
pub fn existence_law()
    ensures test { (z : ZoneSpec) (n : List (List ℕ)) → IsNamed z → (exists z n ≡ true) ↔ Exists z n }
    ensures plain { (z : ZoneSpec) (n : List (List ℕ)) → IsUncut z n → exists z n ≡ list_any (λ (r : Record). is_under r.owner n) z.records }
{}

/// The search for the longest name over another that exists finds its closest encloser (RFC 4592,
/// section 3.3.1).
pub fn encloser_law()
    ensures found { (z : ZoneSpec) (q e : List (List ℕ)) → IsNamed z → closest z q ≡ Some e → IsEncloser z q e }
    ensures sought { (z : ZoneSpec) (q e : List (List ℕ)) → IsNamed z → e ≢ [] → IsEncloser z q e → closest z q ≡ Some e }
{}

/// The look-up gives the zone's link for a name of the zone with no cut over it, and otherwise the cut
/// that the name is referred to (RFC 1034, section 4.3.2, step 3).
pub fn link_law()
    ensures link { (z : ZoneSpec) (q : List (List ℕ)) (t : ℕ) (soa : Record) → IsNamed z → HasSoaAtOrigin z → HasOneTtl z → denial_of z ≡ Some soa
        → IsAtOrUnder q z.origin → cut_of z q ≡ None → IsLink z q t (link_by soa z q t) }
    ensures referral { (z : ZoneSpec) (q c : List (List ℕ)) → IsNamed z → cut_of z q ≡ Some c → IsCutOver z q c }
{}

/// All that the look-up gives for a name at or under the origin. Where no cut stands over the name, it is the zone's
/// link; otherwise it is the referral: the cut, its NS records and the addresses that the zone has of its servers, each
/// once (RFC 1034, section 4.3.2, step 3b).
pub fn local_law()
    ensures { (z : ZoneSpec) (q : List (List ℕ)) (t : ℕ) (soa : Record) → IsNamed z → HasSoaAtOrigin z → HasOneTtl z → denial_of z ≡ Some soa
        → IsAtOrUnder q z.origin → IsLocal z q t (local_by soa z q t) }
{}

/// A name that exists is answered by its own records, never by a wildcard's (RFC 1034, section 4.3.3).
pub fn own_records_law()
    ensures source { (z : ZoneSpec) (q s : List (List ℕ)) → Exists z q → IsSource z q s → s ≡ q }
    ensures found { (z : ZoneSpec) (q : List (List ℕ)) (t : ℕ) (set : List Record) (r : Record) → Exists z q → IsLink z q t (Found set) → Contains set r → At z q t r }
    ensures alias { (z : ZoneSpec) (q : List (List ℕ)) (t : ℕ) (r : Record) → Exists z q → IsLink z q t (Alias r) → At z q cname_type r }
{}

/// NXDOMAIN is given only where nothing at or under the name exists, and no wildcard has records right under its
/// closest encloser (RFC 1034, section 4.3.2, step 3c).
pub fn name_error_law()
    ensures nothing { (z : ZoneSpec) (q n : List (List ℕ)) (t : ℕ) (soa : Record) → IsLink z q t (NxDomain soa) → IsAtOrUnder n q → Exists z n → ⊥ }
    ensures wildcard { (z : ZoneSpec) (q e : List (List ℕ)) (t : ℕ) (soa : Record) → IsLink z q t (NxDomain soa) → IsEncloser z q e → IsEmpty z (star ∷ e) }
{}

/// A name at or beneath a cut has no link: the zone refers to the cut (RFC 1034, section 4.3.2, step 3b).
pub fn delegated_name_law()
    ensures { (z : ZoneSpec) (q c : List (List ℕ)) (t : ℕ) (l : Link) → IsCut z c → IsAtOrUnder q c → IsLink z q t l → ⊥ }
{}

/// A question has one link but for TTLs, order and repeats (RFC 2181, sections 5 and 10.1), and the
/// look-up gives it.
pub fn one_link_law()
    ensures one { (z : ZoneSpec) (q : List (List ℕ)) (t : ℕ) (k l : Link) → HasOneAlias z → HasOneSoa z → IsLink z q t k → IsLink z q t l → SameLink k l }
    ensures looked_up { (z : ZoneSpec) (q : List (List ℕ)) (t : ℕ) (soa : Record) (l : Link) → IsNamed z → HasSoaAtOrigin z → HasOneSoa z → HasOneTtl z → HasOneAlias z
        → denial_of z ≡ Some soa → IsLink z q t l → SameLink l (link_by soa z q t) }
{}

/// A zone is refused exactly where its records break a rule (RFC 1034, sections 3.6.2 and 4.2.1; RFC 2181, sections 5.2
/// and 10.1; RFC 4592, section 4). A zone that is not refused meets the premises of the laws above.
pub fn zone_law()
    ensures rules { (z : ZoneSpec) → IsNamed z → (fault_of z ≡ None) ↔ IsZone z }
    ensures premises { (z : ZoneSpec) → IsZone z → HasSoaAtOrigin z × HasOneSoa z × HasOneTtl z × HasOneAlias z × ((soa : Record) × (denial_of z ≡ Some soa)) }
{}

/// Each zone meets all rules, and each of its owners has a label: the origin has one, and all owners are at or under
/// it. The call does nothing.
pub fn zone_keeps_rules<A: Allocator>(zone: &Zone<A>)
    ensures named { IsNamed zone.now }
    ensures rules { IsZone zone.now }
{
    zone.sound_law();
    zone.origin().well_formed_law();
}
