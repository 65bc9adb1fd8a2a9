//! The laws as a function that does nothing, whose clauses are proved.

ghost use Rattle.network.specs.Laws.{NetworkHeadline, NetworkIsRun};

/// Every reply is right: in every list of events of a network of a well formed world, whose resolver has that
/// world's local zones and hints, each reply refuses bytes that are no query, or answers a query of its client;
/// and where that one is recursive the reply is a SERVFAIL, or carries exactly what the look-up of RFC 1034,
/// section 4.3.2, finds in the world's zones, or is truncated over UDP where that is longer than 512 bytes. Replies
/// are carried in any order, any number of times, truncated or lost; nothing is assumed of any message. Which query
/// a reply is to, `run` says: the events are a run of the resolver, step by step, so that it is the very one that
/// the reply's step serves, and that every law of `laws` holds of it.
pub fn network_law()
    ensures right { NetworkHeadline }
    ensures run { NetworkIsRun }
{}
