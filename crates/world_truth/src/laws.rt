//! Laws of what is true in a world: functions that do nothing, whose clauses are proved.

ghost use Rattle.world_truth.specs.Beneath.{OriginsBeneath, ErrorBeneath};
ghost use Rattle.world_truth.specs.FrameLaws.{LocalIsTrue, HintsStart, CutStarts, KeptStarts, KeptBelowStarts, ReferralKept, ReferralStarts, AddressAdds, FrameAsks};
ghost use Rattle.world_truth.specs.Laws.{ChargeIsUncut, SomeInCharge, OneInCharge, SomeTrueLink, OneTrueLink, OneTruth, NineHaveNone, CnameIsPlain, ChainGrows, OneWhole, OneReply, HonestAnswer, HonestReferral, ErrorForAll, AliasForAll, FoundAsAlias, AliasAsFound, SameIsTrue, StaysTrue, FoundIsOnce, HeldIsOnce};
ghost use Rattle.world_truth.specs.Sample.{SampleStands};

/// In a well formed world no cut of the zone in charge of a name stands over it, each name has a zone in
/// charge, and one alone (RFC 1034, sections 4.2 and 4.3.2, step 2).
pub fn charge_law()
    ensures uncut { ChargeIsUncut }
    ensures some { SomeInCharge }
    ensures one { OneInCharge }
{}

/// A question has a link in a well formed world and one alone, and one truth at most: but for TTLs, order
/// and repeats its aliases and its end are one (RFC 1034, sections 3.6.2 and 4.3.2; RFC 2181, sections 5 and
/// 10.1).
pub fn one_truth_law()
    ensures some { SomeTrueLink }
    ensures link { OneTrueLink }
    ensures truth { OneTruth }
{}

/// CNAME chains: one grows by the alias at its end; nine aliases have no truth; where CNAME is asked
/// for none is followed (RFC 1034, section 3.6.2).
pub fn chain_law()
    ensures grows { ChainGrows }
    ensures nine { NineHaveNone }
    ensures plain { CnameIsPlain }
{}

/// A right reply is right for one truth only: in a well formed world two right replies to one question that
/// are not truncated have the same RCODE, the same aliases in order, the same records behind them, as many, and
/// the same authority, TTLs aside.
pub fn one_reply_law()
    ensures whole { OneWhole }
    ensures reply { OneReply }
{}

/// What is true stays true where TTLs, order and repeats alone are changed, as by a limit on TTLs or by age.
pub fn same_law()
    ensures link { SameIsTrue }
    ensures change { StaysTrue }
{}

/// What a zone finds has each record once, TTLs aside, since a set has one TTL (RFC 2181, section 5.2).
pub fn once_law()
    ensures found { FoundIsOnce }
    ensures held { HeldIsOnce }
{}

/// What a server that may be asked honestly answers is true: the link that its message is taken for is the
/// world's link of the question, TTLs, order and repeats aside.
pub fn honest_answer_law()
    ensures { HonestAnswer }
{}

/// What a server that may be asked honestly refers to may be followed: the names that are taken from its
/// message are names of servers of the cut, each address that is taken serves the cut, and each server of
/// the cut may be asked for the same name.
pub fn honest_referral_law()
    ensures { HonestReferral }
{}

/// What is true of a name for one type serves questions of other types: NXDOMAIN all of them (RFC 2308,
/// section 5), an alias all but those for CNAME, and those as the set that is found; a CNAME that was found
/// serves all others as an alias (RFC 1034, section 3.6.2).
pub fn entry_law()
    ensures error { ErrorForAll }
    ensures alias { AliasForAll }
    ensures found { FoundAsAlias }
    ensures set { AliasAsFound }
{}

/// An NXDOMAIN is true of all names beneath (RFC 8020, section 2), as far as no zone that the resolver holds
/// comes between: each zone beneath a name that does not exist lies at or under one that is held.
pub fn beneath_law()
    ensures origins { OriginsBeneath }
    ensures error { ErrorBeneath }
{}

/// What the zones that the resolver holds say of a question is true (RFC 1034, section 5.3.3, step 1).
pub fn local_law()
    ensures { LocalIsTrue }
{}

/// Each way in which a frame starts or grows keeps that its servers may be asked for its name (RFC 1034,
/// section 5.3.3, steps 2 and 4b): hints, a cut of a held zone, a kept delegation, an honest referral, an
/// address that was looked up for one of its servers.
pub fn frame_law()
    ensures hints { HintsStart }
    ensures cut { CutStarts }
    ensures kept { KeptStarts }
    ensures kept_below { KeptBelowStarts }
    ensures referral { ReferralStarts }
    ensures address { AddressAdds }
    ensures asks { FrameAsks }
{}

/// What is taken from an honest referral may be kept as a delegation.
pub fn delegation_law()
    ensures { ReferralKept }
{}

/// The premises of these laws can be met: a small world with a cut is well formed.
pub fn sample_law()
    ensures { SampleStands }
{}
