//! Laws of the table: the class of a message is the one that the RFCs give it.
ghost use Rattle.classify.specs.Laws.{AnswerIsRead, ReferralIsRead, ReferralIsOver, ReferralIsLowest, AnswerIsUsed, ReferralIsFollowed, FoundIsOnce, CnameIsFound, TruncatedIsOverUdp, AnswerIsOfRoot};

/// A message that is used as an answer is one: whole, with authority, and with this link for the name and the type (RFC
/// 1034, section 5.3.3; RFC 2308, section 2; RFC 2181, section 5.4.1).
pub fn answer_law()
    ensures { AnswerIsRead }
{}

/// A message that is followed as a referral is one. Its servers are those that the message names, and its addresses
/// those that the message gives for their names at or under the zone (RFC 1034, section 4.3.2, step 3b). Its cut is
/// over the name that was asked for, and its TTL is the lowest of its records.
pub fn referral_law()
    ensures read { ReferralIsRead }
    ensures over { ReferralIsOver }
    ensures lowest { ReferralIsLowest }
{}

/// The converse: a message that is an answer is used as one, and one that is a referral is followed. No right reply of
/// a server is ignored (RFC 1034, section 5.3.3).
pub fn use_law()
    ensures used { AnswerIsUsed }
    ensures followed { ReferralIsFollowed }
{}

/// A set that is used has each record once (RFC 2181, section 5), and where CNAME is asked for, an alias is
/// found and not followed (RFC 1034, section 3.6.2).
pub fn found_law()
    ensures once { FoundIsOnce }
    ensures cname { CnameIsFound }
{}

/// An ask is sent again over TCP just where its reply came over UDP with the bit TC (RFC 2181, section 9).
pub fn truncated_law()
    ensures { TruncatedIsOverUdp }
{}

/// An answer of a zone's server would be the same answer of a root server.
pub fn root_law()
    ensures { AnswerIsOfRoot }
{}
