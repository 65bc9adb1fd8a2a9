//! Messages are used, and delegations are followed: functions that do nothing, whose clauses are proved.

ghost use Rattle.laws.specs.Calls.{NextIsAsked, TruncatedIsRepeated, ReferralIsFollowed, AskedDidNotFail, FailureIsKept, FramesOpenRightly, AnswerIsUsed, AliasStays};
ghost use Rattle.laws.specs.NewSearches.{NewIsOpened};
ghost use Rattle.laws.specs.Opens.{FramesOpenInSteps};
ghost use Rattle.laws.specs.Searches.{AskIsOfSearch};
ghost use Rattle.laws.specs.Steps.{LostIsAskedOn, TruncatedIsAskedAgain, ReferralIsAsked, AnswerIsReplied, AliasIsKept};

/// The effect of one call of the work on a query (RFC 1034, section 5.3.3). Where an ask ended in vain, the plan's next
/// address is asked, of those that did not fail lately to answer the same. A truncated reply is asked for again over
/// TCP, and a referral is followed. A frame opens where the local zones and the delegations say, with a plan by the
/// penalties. An answer for the query's own name is used, and an alias stays in its chain. A server's failure to answer
/// is cached, and over UDP no server is asked that lately failed to answer the same (RFC 2308, section 7.1).
pub fn calls_law()
    ensures next { NextIsAsked }
    ensures truncated { TruncatedIsRepeated }
    ensures referral { ReferralIsFollowed }
    ensures known { AskedDidNotFail }
    ensures kept { FailureIsKept }
    ensures frame { FramesOpenRightly }
    ensures answer { AnswerIsUsed }
    ensures alias { AliasStays }
{}

/// The open ask of a query is for the question of its innermost search. This is what a step does at once for the open
/// query that it serves, over every run and whatever came before. An ask that ended in vain goes on to the plan's next
/// address. A truncated reply is asked for again over TCP. A referral of which an address is used is followed. An
/// answer that ends the chain is replied, and an alias stays in the chain. A frame that opens is at the start of its
/// question, and the first address of its plan is asked. Only the query's deadline and its 40 asks stand before an ask,
/// and for a new query 1,024 others. Each search that the query has after the step was there before it, is at the cut
/// of a referral that the step accepts, or is a frame that opens in the step.
pub fn runs_law()
    ensures ask { AskIsOfSearch }
    ensures lost { LostIsAskedOn }
    ensures truncated { TruncatedIsAskedAgain }
    ensures referral { ReferralIsAsked }
    ensures answer { AnswerIsReplied }
    ensures alias { AliasIsKept }
    ensures opens { FramesOpenInSteps }
    ensures searches { NewIsOpened }
{}
