//! The response codes of a header (RFC 1035, section 4.1.1), as `Header::rcode` has them.

/// NOERROR: no error condition.
pub const NO_ERROR: u8 = 0;

/// FORMERR: the query could not be read.
pub const FORM_ERR: u8 = 1;

/// SERVFAIL: the server could not answer.
pub const SERV_FAIL: u8 = 2;

/// NXDOMAIN: the name does not exist.
pub const NX_DOMAIN: u8 = 3;

/// NOTIMP: this kind of query is not served.
pub const NOT_IMP: u8 = 4;

/// REFUSED: the server does not answer this.
pub const REFUSED: u8 = 5;
