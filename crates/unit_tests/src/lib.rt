//! What rows of text can't show of what stands below the resolver (`vectors_messages`, `vectors_zones` and
//! `vectors_resolver` have the rows): zones made at random, lists of calls made at random, counts of growths, very many
//! records and very long texts, copies of typed events and actions, frames over streams that fault, the numbers of
//! clients and loops, and the allocator and the writer of tests.
//!
//! Refused growths are tried from the outermost: each one of whole plays and commands in `commands_tests`, each one of
//! a step in `resolver_tests`. Here stand those of what is read and copied outside of a step.
#![tactic(auto)]

#[cfg(test)]
mod admission_tests;
#[cfg(test)]
mod authority_tests;
#[cfg(test)]
mod cache_tests;
#[cfg(test)]
mod counters_tests;
#[cfg(test)]
mod dispatch_tests;
#[cfg(test)]
mod failing_writer_tests;
#[cfg(test)]
mod rdata_tests;
#[cfg(test)]
mod refusing_alloc_tests;
#[cfg(test)]
mod shared;
#[cfg(test)]
mod sockets_tests;
#[cfg(test)]
mod typed_tests;
#[cfg(test)]
mod wire_tests;
#[cfg(test)]
mod worlds_tests;
