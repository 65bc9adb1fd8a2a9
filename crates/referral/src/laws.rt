//! Laws of the entries of cached cuts: functions that do nothing, whose clauses are proved.

ghost use Rattle.referral.specs.Made.{NamesAreTargets, TargetsAreNames, AddressesAreGlue, GlueIsAddresses};
ghost use Rattle.referral.specs.Members.{BestKeepsMembers, KeepBringsOne, KeptIsThere, KeepLosesFew, FoundIsBest, BestStaysNamed, KeepStaysNamed, FoundIsOver, BestStaysValid, KeepStaysValid};

/// Which entries a look-up and a `keep` leave. A look-up changes their order alone, and finds the deepest live cut. A
/// `keep` adds the cut's entry alone, unless its TTL is 0, and removes the old entry of its name and the entry past the
/// capacity.
pub fn members_law()
    ensures looked { BestKeepsMembers }
    ensures only { KeepBringsOne }
    ensures there { KeptIsThere }
    ensures gone { KeepLosesFew }
    ensures best { FoundIsBest }
{}

/// Each call leaves entries of different names, each under the owner of its cut, and no more than the capacity. So the
/// cut that is found is over the name of the question.
pub fn named_law()
    ensures best { BestStaysNamed }
    ensures kept { KeepStaysNamed }
    ensures over { FoundIsOver }
    ensures best_valid { BestStaysValid }
    ensures kept_valid { KeepStaysValid }
{}

/// A cut that is made of records has the targets of its NS records and no other names. It has the addresses of the A
/// records and no others, each with its owner.
pub fn made_law()
    ensures names { NamesAreTargets }
    ensures targets { TargetsAreNames }
    ensures addresses { AddressesAreGlue }
    ensures glue { GlueIsAddresses }
{}
