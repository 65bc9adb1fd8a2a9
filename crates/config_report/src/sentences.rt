//! What may stand where something was refused.
ghost use Rattle.std.specs.Prelude.{◌≡◌};
ghost use Rattle.config_report.specs.Sentences.{begins_comment, file_sentence, form_of, line_sentence, range_of, rule_sentence, word_count, words_of};

use masterfile::FileKind;
use text_lines::LineKind;
use zone::ZoneError;

/// What is wrong with a line of a server's file that begins with this word, and has as many words as such a line has,
/// or not.
pub(crate) fn line_sentence(kind: LineKind, word: &str, is_full: bool) -> &'static str
    ensures { result.now ≡ line_sentence kind word.now is_full }
{
    match kind {
        LineKind::UnknownWord => words_of(word),
        LineKind::BadNumber => range_of(word),
        LineKind::BadName =>
            "a name has labels of 1 to 63 bytes, with dots between, and 255 bytes at most",
        LineKind::WordCount if is_full => "an earlier line says this already",
        LineKind::WordCount => form_of(word),
        LineKind::BadHex => "64 hexadecimal digits",
        LineKind::BadAddress =>
            "an address is four numbers from 0 to 255 with dots between, as 192.0.2.1",
        LineKind::BadType | LineKind::OpenBlock => "it is refused",
        LineKind::Memory => "no memory was left",
    }
}

/// How many words a line has that begins with this word.
pub(crate) fn word_count(word: &str) -> usize
    ensures { result ≡ word_count word.now }
{
    match word {
        "listen" | "local" | "metrics" => 3,
        _ => 2,
    }
}

// Which words may stand where another one does, in a line that begins with this word.
fn words_of(word: &str) -> &'static str
    ensures { result.now ≡ words_of word.now }
{
    match word {
        "log" => "a level is warn or info",
        _ if begins_comment(word) => "a comment has ; as the first byte of its line",
        _ =>
            "a line begins with listen, port, hint, local, cache, delegations, penalties, failures, sockets, workers, streams, clients, loops, metrics, log or seed",
    }
}

// Whether the word was meant to begin a comment: with `#`, as in other files, or with `;` behind a space.
fn begins_comment(word: &str) -> bool
    ensures { result ≡ begins_comment word.now }
{
    matches!(word.as_bytes(), [b'#' | b';', ..])
}

// The form of a line that begins with this word.
fn form_of(word: &str) -> &'static str
    ensures { result.now ≡ form_of word.now }
{
    match word {
        "listen" => "the line is listen ADDRESS PORT",
        "hint" => "the line is hint ADDRESS",
        "local" => "the line is local ORIGIN FILE, and FILE has no spaces",
        "metrics" => "the line is metrics ADDRESS PORT",
        "log" => "the line is log LEVEL",
        "seed" => "the line is seed HEX",
        _ => "a number stands behind the word, and nothing else",
    }
}

// Which numbers may stand in a line that begins with this word.
fn range_of(word: &str) -> &'static str
    ensures { result.now ≡ range_of word.now }
{
    match word {
        "listen" => "a port is a number from 0 to 65535",
        "metrics" => "a port is a number from 1 to 65535",
        "port" => "a number from 1 to 65535",
        "sockets" | "workers" | "loops" => "a number from 1 to 16",
        "streams" => "a number from 1 to 256",
        "clients" => "a number from 1 to 1024",
        _ => "a number from 1 to 1000000",
    }
}

/// What is wrong with an entry of a zone file.
pub(crate) fn file_sentence(kind: FileKind) -> &'static str
    ensures { result.now ≡ file_sentence kind }
{
    match kind {
        FileKind::UnknownType =>
            "the types are A, NS, CNAME, SOA, PTR, MX, TXT, AAAA and SRV, behind one TTL and one class at most",
        FileKind::BadName =>
            "a name has labels of 1 to 63 bytes, with dots between, and 255 bytes at most, its origin's among them",
        FileKind::BadNumber =>
            "a number is out of its range; a TTL is a number of seconds up to 2147483647",
        FileKind::NoTtl =>
            "a TTL stands in the entry, in one before it, or in a line $TTL before it",
        FileKind::NoOwner =>
            "the first entry begins with its owner; a line that begins with a space has the owner before it",
        FileKind::OpenText => "a parenthesis or a quote lacks its other half",
        FileKind::UnknownDirective => "the directives are $ORIGIN and $TTL",
        FileKind::BadClass => "the class is IN",
        FileKind::BadData =>
            "data are missing, too many, too long or of another form than the type's",
        FileKind::Memory => "no memory was left",
    }
}

/// Which rule of zones is broken.
pub(crate) fn rule_sentence(error: ZoneError) -> &'static str
    ensures { result.now ≡ rule_sentence error }
{
    match error {
        ZoneError::Soa => "a zone has exactly one SOA record, at its origin",
        ZoneError::NoServers => "a zone has an NS record at its origin",
        ZoneError::ForeignOwner => "the owner is neither the origin nor beneath it",
        ZoneError::CnameClash => "no other record stands at the name of a CNAME",
        ZoneError::MixedTtls => "all records of one name and type have one TTL",
        ZoneError::DataAtCut =>
            "the name is delegated by an NS record at it or above it: only addresses of servers may stand there",
        ZoneError::InnerStar => "a label * is the first of its name",
        ZoneError::WildcardAuthority => "no NS or SOA stands at a name that begins with *",
        ZoneError::WildcardBeneathCut => "a name that begins with * is not beneath a delegated one",
        ZoneError::Memory => "no memory was left",
    }
}
