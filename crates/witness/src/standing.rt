//! That the laws stand of something, as a function that does nothing, whose clauses are proved.

ghost use Rattle.witness.specs.Stands.{LawsStand, SilenceStands, KnownFailureStands, StarvedStands, CacheStands, StreamStands, AliasStands, LookUpStands, TooManyLookUpsStands};

/// The laws over runs are of something: there is a well formed world and an honest run in it, in which a client asks,
/// the server that is asked refers the resolver to another, and that one's answer goes to the client. There are runs in
/// which the only server is silent and the query fails for want of servers, in which it fails and the query with it,
/// and in which memory is refused. In others the same question is answered from the cache a second later, a truncated
/// answer is asked for again over TCP, and an alias is followed to its target. In one the address of a server is looked
/// up that a referral names without one. In one a query fails since too many names of servers were looked up for it.
pub fn laws_stand()
    ensures answered { LawsStand }
    ensures silent { SilenceStands }
    ensures failed { KnownFailureStands }
    ensures starved { StarvedStands }
    ensures cached { CacheStands }
    ensures stream { StreamStands }
    ensures alias { AliasStands }
    ensures look_up { LookUpStands }
    ensures too_many_look_ups { TooManyLookUpsStands }
{}
