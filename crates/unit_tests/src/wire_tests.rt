//! The tests of `wire`, from outside: by what it makes public.
mod chain_tests;
mod lent_tests;
mod skipped_tests;

// The answer of a local zone: the question's name by a pointer, TTL 300, 192.0.2.1.
pub const REPLY: &[u8] =
    b"\x124\x85\x80\0\x01\0\x01\0\0\0\0\x03www\x07example\0\0\x01\0\x01\xc0\x0c\0\x01\0\x01\0\0\x01\x2c\0\x04\xc0\0\x02\x01";

// A negative answer: no record, and the zone's SOA in the authority section, TTL 60, its names by pointers into the question and
// the SOA (RFC 2308, sections 2.2 and 3).
pub const DENIAL: &[u8] =
    b"\0\x01\x84\x80\0\x01\0\0\0\x01\0\0\x01b\x03lab\x07example\0\0\x10\0\x01\xc0\x0e\0\x06\0\x01\0\0\0\x3c\0\x1d\x02ns\xc0\x0e\x01h\xc0\x0e\0\0\0\x01\0\0\0\x02\0\0\0\x03\0\0\0\x04\0\0\0\x3c";
