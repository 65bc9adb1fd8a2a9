//! The examples in the heads of crates, each compiled as the body of a function, so that none is out of date.
//! `tools/heads` compares them. The module `x_head` has that of `x`.
#![tactic(auto)]

#[cfg(test)]
mod asks_head;
#[cfg(test)]
mod authority_head;
#[cfg(test)]
mod cache_head;
#[cfg(test)]
mod causes_head;
#[cfg(test)]
mod classify_head;
#[cfg(test)]
mod config_head;
#[cfg(test)]
mod config_report_head;
#[cfg(test)]
mod counters_head;
#[cfg(test)]
mod decimal_head;
#[cfg(test)]
mod dname_head;
#[cfg(test)]
mod engine_fixture_head;
#[cfg(test)]
mod engine_head;
#[cfg(test)]
mod events_head;
#[cfg(test)]
mod failing_writer_head;
#[cfg(test)]
mod frames_head;
#[cfg(test)]
mod front_head;
#[cfg(test)]
mod iterate_head;
#[cfg(test)]
mod lookup_head;
#[cfg(test)]
mod master_lexer_head;
#[cfg(test)]
mod masterfile_head;
#[cfg(test)]
mod memory_head;
#[cfg(test)]
mod open_queries_head;
#[cfg(test)]
mod play_head;
#[cfg(test)]
mod rdata_head;
#[cfg(test)]
mod record_fixtures_head;
#[cfg(test)]
mod referral_head;
#[cfg(test)]
mod refusing_alloc_head;
#[cfg(test)]
mod reply_lines_head;
#[cfg(test)]
mod retry_head;
#[cfg(test)]
mod score_head;
#[cfg(test)]
mod script_head;
#[cfg(test)]
mod simnet_head;
#[cfg(test)]
mod sockets_head;
#[cfg(test)]
mod suffixes_head;
#[cfg(test)]
mod text_lines_head;
#[cfg(test)]
mod wire_head;
#[cfg(test)]
mod world_text_head;
#[cfg(test)]
mod worlds_head;
#[cfg(test)]
mod zone_head;
