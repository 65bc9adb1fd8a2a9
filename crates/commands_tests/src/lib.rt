//! What rows of commands (tests/commands) can't show of `config` and `commands`: the numbers that a server's file sets,
//! growths that are refused, output that fails, and what is wanting at a start; and of `server_start`, a resolver at its
//! sockets, with servers and clients beside it.
#![tactic(auto)]

#[cfg(test)]
mod client;
#[cfg(test)]
mod config_tests;
#[cfg(test)]
mod done;
#[cfg(test)]
mod growths;
#[cfg(test)]
mod nameservers;
#[cfg(test)]
mod place;
#[cfg(test)]
mod plays;
#[cfg(test)]
mod serve_tests;
#[cfg(test)]
mod server_start_tests;
#[cfg(test)]
mod tests;
