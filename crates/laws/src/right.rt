//! The theorem as functions that do nothing, whose clauses are proved.

ghost use Rattle.laws.specs.Headline.{Headline};
ghost use Rattle.laws.specs.RightAndTimely.{RightAndTimely};
ghost use Rattle.laws.specs.Truthful.{HeldIsTrue};

/// Every reply is right. In a well formed world whose local zones and hints are the resolver's, take any run up to a
/// reply to a recursive query, in which each accepted message is one that the asked server may send. That reply is a
/// SERVFAIL, or is truncated over UDP where the right reply is longer than 512 bytes. Or it carries exactly the CNAME
/// chain and the RRset, NXDOMAIN or NODATA that the look-up of RFC 1034, section 4.3.2, finds in the world's zones.
pub fn headline_law()
    ensures { Headline }
{}

/// The promise in one sentence: such a reply is right, and it is made of links within their TTL, or fails for a cause
/// that stands in the run (`timely_law`).
pub fn headline_and_timely_law()
    ensures { RightAndTimely }
{}

/// The ground of the theorem: in such a run all data of the resolver are true. Each entry of the cache is a link of the
/// world, and the servers of each cached cut are those of its delegation. Those of each open search serve its zone, and
/// the aliases of each open query are those of its name.
pub fn truth_law()
    ensures { HeldIsTrue }
{}
