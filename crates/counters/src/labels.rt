//! What counters are labelled with.
ghost use Rattle.std.specs.Prelude.{◌≡◌, ◌<◌};
ghost use Rattle.counters.specs.Counters.{way_place, type_place, rcode_place, source_place, fault_place, socket_fault_place, bucket_place};
ghost use Rattle.counters.specs.Labels.{way_word, type_of, type_word, rcode_of, rcode_word, cause_word, source_word, fault_word, socket_fault_word, bucket_of, bound_word};

use causes::Cause;

/// How a query or an ask travels (RFC 1035, section 4.2).
#[derive(Clone, Copy, Debug, PartialEq, Eq)]
pub enum Way {
    /// In a datagram.
    Udp,
    /// On a stream.
    Tcp,
}

impl Way {
    /// Its word.
    pub fn word(self) -> &'static str
        ensures { result.now ≡ way_word self }
    {
        match self {
            Way::Udp => "udp",
            Way::Tcp => "tcp",
        }
    }

    // Its place among them.
    pub(crate) fn place(self) -> usize
        ensures is { result ≡ way_place self }
        ensures within { result < 2 }
    {
        match self {
            Way::Udp => 0,
            Way::Tcp => 1,
        }
    }
}

/// The type that a query asks for, by those that are counted apart.
#[derive(Clone, Copy, Debug, PartialEq, Eq)]
pub enum QueryType {
    /// An IPv4 address.
    A,
    /// A name server.
    Ns,
    /// An alias.
    Cname,
    /// The head of a zone.
    Soa,
    /// A name of an address.
    Ptr,
    /// A mail exchange.
    Mx,
    /// Text.
    Txt,
    /// An IPv6 address.
    Aaaa,
    /// A server of a service.
    Srv,
    /// The service of a web site.
    Https,
    /// Any other type, and what has no one question.
    Other,
}

impl QueryType {
    /// Its word.
    pub fn word(self) -> &'static str
        ensures { result.now ≡ type_word self }
    {
        match self {
            QueryType::A => "A",
            QueryType::Ns => "NS",
            QueryType::Cname => "CNAME",
            QueryType::Soa => "SOA",
            QueryType::Ptr => "PTR",
            QueryType::Mx => "MX",
            QueryType::Txt => "TXT",
            QueryType::Aaaa => "AAAA",
            QueryType::Srv => "SRV",
            QueryType::Https => "HTTPS",
            QueryType::Other => "other",
        }
    }

    /// The type of this number (RFC 1035, section 3.2.2).
    pub fn of_number(number: u16) -> QueryType
        ensures { result ≡ type_of number }
    {
        match number {
            1 => QueryType::A,
            2 => QueryType::Ns,
            5 => QueryType::Cname,
            6 => QueryType::Soa,
            12 => QueryType::Ptr,
            15 => QueryType::Mx,
            16 => QueryType::Txt,
            28 => QueryType::Aaaa,
            33 => QueryType::Srv,
            65 => QueryType::Https,
            _ => QueryType::Other,
        }
    }

    // Its place among them.
    pub(crate) fn place(self) -> usize
        ensures is { result ≡ type_place self }
        ensures within { result < 11 }
    {
        match self {
            QueryType::A => 0,
            QueryType::Ns => 1,
            QueryType::Cname => 2,
            QueryType::Soa => 3,
            QueryType::Ptr => 4,
            QueryType::Mx => 5,
            QueryType::Txt => 6,
            QueryType::Aaaa => 7,
            QueryType::Srv => 8,
            QueryType::Https => 9,
            QueryType::Other => 10,
        }
    }
}

/// The RCODE of a reply (RFC 1035, section 4.1.1).
#[derive(Clone, Copy, Debug, PartialEq, Eq)]
pub enum Rcode {
    /// 0.
    NoError,
    /// 1, a query that can't be read.
    FormErr,
    /// 2, a failure.
    ServFail,
    /// 3, no such name.
    NxDomain,
    /// 4, not served.
    NotImp,
    /// 5, refused.
    Refused,
    /// Any other.
    Other,
}

impl Rcode {
    /// Its word.
    pub fn word(self) -> &'static str
        ensures { result.now ≡ rcode_word self }
    {
        match self {
            Rcode::NoError => "NOERROR",
            Rcode::FormErr => "FORMERR",
            Rcode::ServFail => "SERVFAIL",
            Rcode::NxDomain => "NXDOMAIN",
            Rcode::NotImp => "NOTIMP",
            Rcode::Refused => "REFUSED",
            Rcode::Other => "other",
        }
    }

    /// The RCODE of this number.
    pub fn of_number(number: u8) -> Rcode
        ensures { result ≡ rcode_of number }
    {
        match number {
            0 => Rcode::NoError,
            1 => Rcode::FormErr,
            2 => Rcode::ServFail,
            3 => Rcode::NxDomain,
            4 => Rcode::NotImp,
            5 => Rcode::Refused,
            _ => Rcode::Other,
        }
    }

    // Its place among them.
    pub(crate) fn place(self) -> usize
        ensures is { result ≡ rcode_place self }
        ensures within { result < 7 }
    {
        match self {
            Rcode::NoError => 0,
            Rcode::FormErr => 1,
            Rcode::ServFail => 2,
            Rcode::NxDomain => 3,
            Rcode::NotImp => 4,
            Rcode::Refused => 5,
            Rcode::Other => 6,
        }
    }
}

/// What an answer was made of.
#[derive(Clone, Copy, Debug, PartialEq, Eq)]
pub enum Source {
    /// A zone that the server holds: AA is set.
    Local,
    /// What was known when the query came in: nothing was asked for it.
    Cache,
    /// Other servers, which were asked for it.
    Servers,
}

impl Source {
    /// Its word.
    pub fn word(self) -> &'static str
        ensures { result.now ≡ source_word self }
    {
        match self {
            Source::Local => "local",
            Source::Cache => "cache",
            Source::Servers => "servers",
        }
    }

    // Its place among them.
    pub(crate) fn place(self) -> usize
        ensures is { result ≡ source_place self }
        ensures within { result < 3 }
    {
        match self {
            Source::Local => 0,
            Source::Cache => 1,
            Source::Servers => 2,
        }
    }
}

/// Why an ask has no reply that is an event.
#[derive(Clone, Copy, Debug, PartialEq, Eq)]
pub enum AskFault {
    /// Its server's address lies in a block in which no server is asked.
    Barred,
    /// No descriptor was left for its socket.
    Descriptors,
    /// The system or the server refused it.
    Refused,
    /// Its stream was reset, or ended before a whole reply.
    Reset,
    /// Too many are open: the oldest was closed, or it was not begun.
    Crowded,
    /// Nothing that repeats it came in time.
    Silent,
}

impl AskFault {
    /// Its word.
    pub fn word(self) -> &'static str
        ensures { result.now ≡ fault_word self }
    {
        match self {
            AskFault::Barred => "barred",
            AskFault::Descriptors => "descriptors",
            AskFault::Refused => "refused",
            AskFault::Reset => "reset",
            AskFault::Crowded => "crowded",
            AskFault::Silent => "silent",
        }
    }

    // Its place among them.
    pub(crate) fn place(self) -> usize
        ensures is { result ≡ fault_place self }
        ensures within { result < 6 }
    {
        match self {
            AskFault::Barred => 0,
            AskFault::Descriptors => 1,
            AskFault::Refused => 2,
            AskFault::Reset => 3,
            AskFault::Crowded => 4,
            AskFault::Silent => 5,
        }
    }
}

/// What failed at the sockets to clients, or at the wait for any socket.
#[derive(Clone, Copy, Debug, PartialEq, Eq)]
pub enum SocketFault {
    /// A datagram could not be sent.
    Send,
    /// A datagram could not be received.
    Receive,
    /// A stream could not be accepted, though a descriptor is left.
    Accept,
    /// A stream could not be accepted, since no descriptor is left.
    Descriptors,
    /// A stream failed while it was read or written.
    Stream,
    /// A socket could not be waited for.
    Poll,
}

impl SocketFault {
    /// Its word.
    pub fn word(self) -> &'static str
        ensures { result.now ≡ socket_fault_word self }
    {
        match self {
            SocketFault::Send => "send",
            SocketFault::Receive => "receive",
            SocketFault::Accept => "accept",
            SocketFault::Descriptors => "descriptors",
            SocketFault::Stream => "stream",
            SocketFault::Poll => "poll",
        }
    }

    // Its place among them.
    pub(crate) fn place(self) -> usize
        ensures is { result ≡ socket_fault_place self }
        ensures within { result < 6 }
    {
        match self {
            SocketFault::Send => 0,
            SocketFault::Receive => 1,
            SocketFault::Accept => 2,
            SocketFault::Descriptors => 3,
            SocketFault::Stream => 4,
            SocketFault::Poll => 5,
        }
    }
}

/// A bucket of the times from query to reply: what is longer than the one before and within its bound.
#[derive(Clone, Copy, Debug, PartialEq, Eq)]
pub enum Bucket {
    /// Up to 1 ms.
    Ms1,
    /// Up to 5 ms.
    Ms5,
    /// Up to 10 ms.
    Ms10,
    /// Up to 25 ms.
    Ms25,
    /// Up to 50 ms.
    Ms50,
    /// Up to 100 ms.
    Ms100,
    /// Up to 250 ms.
    Ms250,
    /// Up to 500 ms.
    Ms500,
    /// Up to 1,000 ms.
    Ms1000,
    /// Up to 2,500 ms.
    Ms2500,
    /// Up to 5,000 ms.
    Ms5000,
    /// Up to 10,000 ms.
    Ms10000,
    /// What is longer.
    Longer,
}

impl Bucket {
    /// Its bound in seconds, as a word.
    pub fn bound(self) -> &'static str
        ensures { result.now ≡ bound_word self }
    {
        match self {
            Bucket::Ms1 => "0.001",
            Bucket::Ms5 => "0.005",
            Bucket::Ms10 => "0.01",
            Bucket::Ms25 => "0.025",
            Bucket::Ms50 => "0.05",
            Bucket::Ms100 => "0.1",
            Bucket::Ms250 => "0.25",
            Bucket::Ms500 => "0.5",
            Bucket::Ms1000 => "1",
            Bucket::Ms2500 => "2.5",
            Bucket::Ms5000 => "5",
            Bucket::Ms10000 => "10",
            Bucket::Longer => "+Inf",
        }
    }

    /// The first bucket that so many milliseconds are within.
    pub fn of_millis(millis: u64) -> Bucket
        ensures { result ≡ bucket_of millis }
    {
        if millis <= 1 {
            Bucket::Ms1
        } else if millis <= 5 {
            Bucket::Ms5
        } else if millis <= 10 {
            Bucket::Ms10
        } else if millis <= 25 {
            Bucket::Ms25
        } else if millis <= 50 {
            Bucket::Ms50
        } else if millis <= 100 {
            Bucket::Ms100
        } else if millis <= 250 {
            Bucket::Ms250
        } else if millis <= 500 {
            Bucket::Ms500
        } else if millis <= 1_000 {
            Bucket::Ms1000
        } else if millis <= 2_500 {
            Bucket::Ms2500
        } else if millis <= 5_000 {
            Bucket::Ms5000
        } else if millis <= 10_000 {
            Bucket::Ms10000
        } else {
            Bucket::Longer
        }
    }

    // Its place among them.
    pub(crate) fn place(self) -> usize
        ensures is { result ≡ bucket_place self }
        ensures within { result < 13 }
    {
        match self {
            Bucket::Ms1 => 0,
            Bucket::Ms5 => 1,
            Bucket::Ms10 => 2,
            Bucket::Ms25 => 3,
            Bucket::Ms50 => 4,
            Bucket::Ms100 => 5,
            Bucket::Ms250 => 6,
            Bucket::Ms500 => 7,
            Bucket::Ms1000 => 8,
            Bucket::Ms2500 => 9,
            Bucket::Ms5000 => 10,
            Bucket::Ms10000 => 11,
            Bucket::Longer => 12,
        }
    }
}

// The word of a cause.
pub(crate) fn cause_word(cause: Cause) -> &'static str
    ensures { result.now ≡ cause_word cause }
{
    match cause {
        Cause::TooManyOpen => "too_many_open",
        Cause::DeadlineOver => "deadline_over",
        Cause::ChainTooLong => "chain_too_long",
        Cause::TooManyAsks => "too_many_asks",
        Cause::NoServerLeft => "no_server_left",
        Cause::ReplyTooLarge => "reply_too_large",
        Cause::KnownFailure => "known_failure",
        Cause::TooManyLookUps => "too_many_look_ups",
    }
}
