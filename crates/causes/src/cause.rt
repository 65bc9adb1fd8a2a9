//! The causes, and their numbers.
ghost use Rattle.std.specs.Prelude.{◌≡◌};
ghost use Rattle.causes.specs.Causes.{cause_number};

/// Why a query is answered SERVFAIL (RFC 1035, section 4.1.1).
#[derive(Clone, Copy, Debug, PartialEq, Eq)]
pub enum Cause {
    /// Too many queries are open.
    TooManyOpen,
    /// The query's deadline is over.
    DeadlineOver,
    /// A CNAME chain that is longer than one may be.
    ChainTooLong,
    /// The query has asked servers as often as it may.
    TooManyAsks,
    /// No server is left to ask, and none was passed over.
    NoServerLeft,
    /// The reply is too large to be sent.
    ReplyTooLarge,
    /// No server is left to ask, and at least one was passed over since it had failed to answer the same less than 30
    /// seconds before (RFC 2308, section 7.1).
    KnownFailure,
    /// The query has looked up addresses of servers' names as often as it may.
    TooManyLookUps,
}

impl Cause {
    /// Its number in output lines.
    pub fn number(self) -> u8
        ensures { result ≡ cause_number self }
    {
        match self {
            Cause::TooManyOpen => 1,
            Cause::DeadlineOver => 2,
            Cause::ChainTooLong => 3,
            Cause::TooManyAsks => 4,
            Cause::NoServerLeft => 5,
            Cause::ReplyTooLarge => 6,
            Cause::KnownFailure => 7,
            Cause::TooManyLookUps => 8,
        }
    }
}
