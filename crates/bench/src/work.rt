//! Which kinds of work are measured, and how each is named and done.
ghost use Rattle.std.specs.Prelude.{◌<◌};

use crate::answers::Known;
use crate::done::{Done, finish};
use crate::links::{self, Says};
use crate::messages::OnMessages;
use crate::steps::OnSteps;
use crate::zones;
use anyhow::Result;
use std::fmt;
use std::rt::Runtime;
use std::time::Instant;

/// Where a name that is looked up stands in its zone.
#[derive(Clone, Copy)]
pub enum Asked {
    /// An address has it as its owner.
    Owner,
    /// A wildcard stands over it.
    Wildcard,
    /// Nothing.
    Nowhere,
    /// It is delegated.
    UnderCut,
}

/// A kind of work, done so many times in a measurement.
#[derive(Clone, Copy)]
pub enum Work {
    Messages(OnMessages),
    /// A record of a master file; so many records are one file.
    ReadZone,
    /// A record of a zone; so many records are one zone.
    BuildThousand,
    BuildTenThousand,
    BuildHundredThousand,
    /// A look-up in a zone of so many hosts.
    Look(Asked, u64),
    /// A link kept in a cache, each for another name; and found again.
    KeepLink(Says),
    FindLink,
    /// A set of so many addresses found in a cache that has nothing else.
    FindSet(u8),
    /// Steps of a resolver.
    Steps(OnSteps),
}

pub const ALL: [Work; 41] = [
    Work::Messages(OnMessages::Decode(1)),
    Work::Messages(OnMessages::See(1)),
    Work::Messages(OnMessages::Encode(1)),
    Work::Messages(OnMessages::Decode(20)),
    Work::Messages(OnMessages::See(20)),
    Work::Messages(OnMessages::Encode(20)),
    Work::ReadZone,
    Work::BuildThousand,
    Work::BuildTenThousand,
    Work::BuildHundredThousand,
    Work::Look(Asked::Owner, 10),
    Work::Look(Asked::Owner, 1_000),
    Work::Look(Asked::Owner, 100_000),
    Work::Look(Asked::Wildcard, 10),
    Work::Look(Asked::Wildcard, 1_000),
    Work::Look(Asked::Wildcard, 100_000),
    Work::Look(Asked::Nowhere, 10),
    Work::Look(Asked::Nowhere, 1_000),
    Work::Look(Asked::Nowhere, 100_000),
    Work::Look(Asked::UnderCut, 10),
    Work::Look(Asked::UnderCut, 1_000),
    Work::Look(Asked::UnderCut, 100_000),
    Work::KeepLink(Says::Addresses(1)),
    Work::KeepLink(Says::NxDomain),
    Work::FindLink,
    Work::FindSet(1),
    Work::FindSet(20),
    Work::Steps(OnSteps::Pass(1)),
    Work::Steps(OnSteps::Pass(1_024)),
    Work::Steps(OnSteps::Answer(1)),
    Work::Steps(OnSteps::Answer(1_024)),
    Work::Steps(OnSteps::Serve(Known::Zone(1))),
    Work::Steps(OnSteps::Serve(Known::Zone(20))),
    Work::Steps(OnSteps::Serve(Known::Cache(1))),
    Work::Steps(OnSteps::Serve(Known::Cache(3))),
    Work::Steps(OnSteps::Serve(Known::Cache(20))),
    Work::Steps(OnSteps::Locked(Known::Zone(1))),
    Work::Steps(OnSteps::Locked(Known::Zone(20))),
    Work::Steps(OnSteps::Locked(Known::Cache(1))),
    Work::Steps(OnSteps::Locked(Known::Cache(3))),
    Work::Steps(OnSteps::Locked(Known::Cache(20))),
];

/// Steps with one query open, and the same with 1,024: as queries are found by index, they take as long.
pub const ON_STEPS: [[Work; 2]; 2] = [
    [
        Work::Steps(OnSteps::Pass(1)),
        Work::Steps(OnSteps::Pass(1_024)),
    ],
    [
        Work::Steps(OnSteps::Answer(1)),
        Work::Steps(OnSteps::Answer(1_024)),
    ],
];

impl fmt::Display for Asked {
    fn fmt<W: fmt::Write>(&self, f: &mut fmt::Formatter<W>) -> fmt::Result {
        f.write_str(match self {
            Asked::Owner => "name",
            Asked::Wildcard => "name under a wildcard",
            Asked::Nowhere => "missing name",
            Asked::UnderCut => "delegated name",
        })
    }
}

impl fmt::Display for Work {
    fn fmt<W: fmt::Write>(&self, f: &mut fmt::Formatter<W>) -> fmt::Result {
        f.write_str(match self {
            Work::Messages(work) => return write!(f, "{work}"),
            Work::ReadZone => "record of a zone file read",
            Work::BuildThousand => "record of 1,000 built into a zone",
            Work::BuildTenThousand => "record of 10,000 built into a zone",
            Work::BuildHundredThousand => "record of 100,000 built into a zone",
            Work::Look(asked, hosts) => return write!(f, "{asked} looked up among {hosts}"),
            Work::KeepLink(Says::Addresses(_)) => "link kept",
            Work::KeepLink(Says::NxDomain) => "denial kept",
            Work::FindLink => "link found",
            Work::FindSet(count) => return write!(f, "set of {count} found"),
            Work::Steps(work) => return write!(f, "{work}"),
        })
    }
}

impl Work {
    /// How often it is done to be measured.
    pub fn rounds(self) -> u64
        ensures { 0 < result }
    {
        match self {
            Work::Messages(work) => work.rounds(),
            Work::Steps(OnSteps::Pass(_)) => 10_000_000,
            Work::Steps(OnSteps::Answer(_) | OnSteps::Serve(_) | OnSteps::Locked(_)) => 1_000_000,
            Work::KeepLink(_) | Work::FindLink | Work::FindSet(_) | Work::Look(..) => 1_000_000,
            Work::ReadZone | Work::BuildHundredThousand => 100_000,
            Work::BuildTenThousand => 10_000,
            Work::BuildThousand => 1_000,
        }
    }

    /// Does it so often.
    pub fn run<R: Runtime + AllocGlobal>(self, rt: &R, rounds: u64) -> Result<Done> {
        match self {
            Work::Messages(work) => {
                let start = Instant::now(rt);
                let sum = work.times(rt.alloc(), rounds)?;
                finish(rt, start, Ok(sum))
            }
            Work::ReadZone => zones::read(rt, rounds),
            Work::BuildThousand | Work::BuildTenThousand | Work::BuildHundredThousand => {
                zones::build(rt, rounds)
            }
            Work::Look(asked, hosts) => zones::look(rt, asked, hosts, rounds),
            Work::KeepLink(says) => links::keep(rt, says, rounds),
            Work::FindLink => links::find(rt, rounds, 1, 1),
            Work::FindSet(count) => links::find(rt, 1, count, rounds),
            Work::Steps(work) => work.run(rt, rounds),
        }
    }
}
