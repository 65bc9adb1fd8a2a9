//! How many queries may be inside and wait, and for how long.
ghost use Rattle.std.specs.Prelude.{◌≡◌};

/// After so many milliseconds a query that is open leaves.
pub const OPEN_MS: u64 = 12_000;

/// After so many milliseconds a query that waits is dropped.
pub const WAIT_MS: u64 = 5_000;

/// Equal queries that are inside at a time, as `of_address` says.
pub const EQUAL: usize = 4;

/// Queries that are inside at a time.
pub const PLACES: usize = 1_024;

/// The last of the places, which go to addresses that have no query inside or waiting.
pub const RESERVE: usize = 64;

/// The last of the places, which go to queries in domains of which a name was answered.
pub const ANSWERED: usize = 256;

/// How many times as many queries as places are left for it one domain may have inside.
pub const DOMAIN_SHARE: usize = 3;

/// Queries that wait at a time.
pub const WAITING: usize = 4_096;

/// How many queries may be inside, and how many may wait.
#[derive(Clone, Copy, Debug, PartialEq, Eq)]
pub struct Limits {
    /// Equal queries inside at a time.
    pub equal: usize,
    /// Queries of one client address, inside and waiting.
    pub each: usize,
    /// Queries inside at a time.
    pub places: usize,
    /// The last of the places, which go to addresses that have no query inside or waiting.
    pub reserve: usize,
    /// The last of the places, which go to queries in domains of which a name was answered.
    pub answered: usize,
    /// Queries that wait at a time.
    pub waiting: usize,
}

impl Limits {
    /// Four equal queries inside; so many of one address; 1,024 places, of which 64 are the reserve and 256 for domains of
    /// which a name was answered; 4,096 that wait.
    pub const fn of_address(each: usize) -> Limits
        ensures { result ≡ record { equal = 4; each = each; places = 1024; reserve = 64; answered = 256; waiting = 4096 } }
    {
        Limits {
            equal: EQUAL,
            each,
            places: PLACES,
            reserve: RESERVE,
            answered: ANSWERED,
            waiting: WAITING,
        }
    }
}
