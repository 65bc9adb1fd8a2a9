//! The texts of the help, in parts: what a command prints, and what the numbers of faults and statuses mean.

// Lines that can be tried.
const EXAMPLES: &str = "
For example, with the files of the folder examples:

  resolverd ask lab.example. examples/zones/lab.zone x.lab.example. TXT
  resolverd check lab.example. examples/zones/lab.zone
  resolverd dump lab.example. examples/zones/lab.zone
  resolverd play examples/plays/small.world examples/plays/first.script
  resolverd storm examples/plays/small.world examples/plays/asks.script examples/plays/asks.script
  cd examples/serve && resolverd serve resolverd.conf
";

// What `check` and `dump` print.
const RECORDS: &str = "
check prints one line, and dump the records as a master file:

  ok N records               the file has N records, and they are a zone
  $ORIGIN NAME               the origin that they are read under
  OWNER TTL IN TYPE DATA     a record, its names in full
";

// The lines of a reply.
const REPLY: &str = "
A reply is printed as a line for its header and one for each of its records.

  reply 1 RCODE              the reply to the query of client 1: NOERROR, FORMERR, SERVFAIL, NXDOMAIN, NOTIMP or REFUSED,
                             and behind it
    aa                       the zone is the authority for the name
    tc                       the reply was over 512 bytes, and its records were left out
    cause K                  why SERVFAIL: 1 too many open queries, 2 its time is up, 3 more than eight aliases,
                             4 too many sends, 5 no server is left, 6 the reply is too large,
                             7 no server is left, and one was passed over that had lately failed to answer,
                             8 look-ups of servers' addresses used up
  an OWNER TTL TYPE DATA     a record of the answer section; ns of the authority section, ar of the additional one
";

// The other lines of `play`.
const EVENTS: &str = "
play prints besides:

  send K ADDRESS NAME TYPE   ask number K goes out in a datagram; tcp in place of send: over TCP
  drop C                     the bytes of client C are dropped
  due                        another query is due
  starved                    no memory was left for a step
  right R of M               of M replies to recursive queries, other than SERVFAIL, R are right in that world
";

// What `storm` prints.
const TOTALS: &str = "
storm plays scripts of at and ask lines, a thread each, in one network, and prints:

  replies N                  how many replies there were
  history ok                 what the threads did is one history of the resolver
  right R                    how many of the replies that play would count are right in that world

Behind --keep stands how many entries that history may have, 1 to 1000000; 65536 where it is left out.
";

// What `serve` prints.
const LISTENS: &str = "
serve prints a line once its sockets are bound, and goes on until it is stopped. It answers whoever
reaches its address.

  listening ADDRESS PORT     where it answers, over UDP and TCP
";

// The lines of a server's file.
const KEYS: &str = "
The file of a server has lines of these words; blank lines and lines that begin with ; are skipped.

  listen ADDRESS PORT        where to answer; port 0 is any that is free
  port N                     the port of other servers, 53
  hint ADDRESS               a server of the root
  local ORIGIN FILE          a zone that is answered from its master file
  cache N                    how many record sets and denials are kept, up to 1000000; 1024
  delegations N              how many delegations are; 1024
  penalties N                how many servers that did not answer are; 1024
  failures N                 how many questions that a server failed to answer are; 1024
  sockets N                  of how many socket numbers each ask draws one, up to 16; 16
  workers N                  how many times sixteen asks over TCP are under way, up to 16; 4
  streams N                  how many streams of clients are open at once, up to 256; 1
  clients N                  how many questions of one address may be under way, up to 1024; 256
  loops N                    how many threads take clients' datagrams, up to 16; 1
  seed HEX                   what identifiers are drawn from, 64 digits; random
  metrics ADDRESS PORT       where counters are served over HTTP; nowhere
  log LEVEL                  warn: what goes wrong goes to standard error; info: the start too; nothing
";

// What `trace` prints.
const STEPS: &str = "
trace asks for the name as a client of serve would, with the same file, zones and hints, and an empty cache. It binds
nothing for clients, and ends with the reply, after ten seconds at most. Behind each ask stands what came:

  send K ADDRESS NAME TYPE   ask number K goes out in a datagram; tcp in place of send: over TCP
    N ms: answer, R records  what came N milliseconds later; a CNAME is: alias to NAME
    N ms: referral to ZONE, S servers, A addresses
                             the servers of a zone beneath, A of them with addresses that are taken
    N ms: NXDOMAIN of the zone ZONE
                             there is no such name; NODATA: no such type
    N ms: truncated          it is asked again over TCP
    N ms: no use: WHY        the next server is asked
    N ms: silent             no reply came in time
  look up NAME TYPE          the address of a server is sought; the asks for it are indented
  cause K: WHY               why the reply is SERVFAIL
";

// What `check-config` prints.
const FINDINGS: &str = "
check-config reads the file and its zones as serve does, and binds its sockets for a moment. It says
in a sentence what serve would refuse; its status, and its line on standard error, are those of serve.

  FILE:LINE: WORDS: SENTENCE the line of the server's file, or of a zone file, and what may stand there
  FILE: OWNER TYPE: SENTENCE the records of a zone file, and the first that breaks a rule of zones
  FILE: SENTENCE             why the file can't be read
  listen ADDRESS PORT: WHY   why a socket can't be bound, over UDP or TCP
  note: SENTENCE             what serve takes, and may not be meant
  ok Z zones R records H hints
                             serve would start with so many
";

// How a fault is told.
const FAULTS: &str = "
One line on standard error says what went wrong.

";

// A fault of a master file.
const FILE_FAULT: &str =
    "  error: FILE:LINE: file K   the master file: 1 unknown type, 2 bad name, 3 bad number, 4 no TTL, 5 no owner,
                             6 open parenthesis or quote, 7 directive not served, 8 bad class, 9 bad data
";

// A broken rule of zones.
const ZONE_FAULT: &str =
    "  error: FILE: zone K        the zone: 1 not one SOA at the origin, 2 no NS at the origin, 3 an owner outside,
                             4 CNAME beside other data, 5 TTLs differ in a set, 6 other data at or beneath a cut,
                             7 a * inside an owner, 8 NS or SOA at a wildcard, 9 a wildcard beneath a cut
";

// The same in a world's zone.
const BLOCK_FAULT: &str =
    "  error: FILE:LINE: zone K   the same of the zone that this line of a world opens
";

// A fault of a world.
const WORLD_FAULT: &str =
    "  error: FILE: world K       the world: 1 no zone at the root, 2 a cut without its zone, 3 a zone that is not delegated,
                             4 a server without its zone, 5 no hint that serves the root, 7 two zones of one origin
";

// A fault of a line.
const LINE_FAULT: &str =
    "  error: FILE:LINE: script K a line of a world, a script or a server's file: 1 unknown word, 2 bad number, 3 bad name,
                             4 unknown type, 5 wrong number of words, 6 bad hexadecimal,
                             7 a zone without end, 8 bad address; of a server's file 2 is also a
                             number out of its limits, and 5 a value or an origin that stands
                             twice, or no listen
";

// A file that is not read.
const UNREADABLE: &str =
    "  error: FILE: unreadable    the file is missing, is a folder, may not be read, or is not UTF-8
";

// A word that is no name.
const NAME_FAULT: &str =
    "  error: name K              a name: 1 empty label, 2 label over 63 bytes, 3 name over 255 bytes, 4 bad escape
";

// A fault of threads.
const POOL_FAULT: &str =
    "  error: pool K              the threads: 1 what they did is not one history, 2 it has more entries than are kept
";

// Settings that the resolver refuses.
const SETTINGS: &str =
    "  error: settings            the resolver refuses what a server's file sets: its lines are held to the
                             same limits before, so that no file should bring it
";

// An address that is not bound.
const SOCKET: &str = "  error: socket              the address can't be bound
";

// A thread or a clock that is missing.
const THREADS: &str =
    "  error: threads             a thread can't be made, or the clock can't be read
";

// A word that is no type.
const TYPE_FAULT: &str =
    "  error: type                another type than A, NS, CNAME, SOA, PTR, MX, TXT, AAAA and SRV
";

// No memory.
const MEMORY: &str = "  error: memory              no memory was left
";

// No output.
const OUTPUT: &str = "  error: output              what was to be printed could not be written
";

// The exit statuses.
const STATUSES: &str = "
The exit status is 0 where all went well, 1 for a fault in what was read, 2 for the command line,
3 when out of memory, and 4 for an unreadable file, an address that can't be bound, a thread that
can't be made, a clock that can't be read or failed output.
";

/// All that is printed behind the list of commands.
pub(crate) const PARTS: &[&str] = &[
    EXAMPLES,
    RECORDS,
    REPLY,
    EVENTS,
    TOTALS,
    LISTENS,
    KEYS,
    FINDINGS,
    STEPS,
    FAULTS,
    FILE_FAULT,
    ZONE_FAULT,
    BLOCK_FAULT,
    WORLD_FAULT,
    LINE_FAULT,
    UNREADABLE,
    NAME_FAULT,
    POOL_FAULT,
    SETTINGS,
    SOCKET,
    THREADS,
    TYPE_FAULT,
    MEMORY,
    OUTPUT,
    STATUSES,
];

/// What `ask` prints, and what its faults mean.
pub(crate) const ASKED: &[&str] = &[
    REPLY, FAULTS, FILE_FAULT, ZONE_FAULT, UNREADABLE, NAME_FAULT, TYPE_FAULT, MEMORY, OUTPUT,
    STATUSES,
];

/// What `check` prints, and what its faults mean.
pub(crate) const CHECKED: &[&str] = &[
    RECORDS, FAULTS, FILE_FAULT, ZONE_FAULT, UNREADABLE, NAME_FAULT, MEMORY, OUTPUT, STATUSES,
];

/// What `dump` prints, and what its faults mean.
pub(crate) const DUMPED: &[&str] = &[
    RECORDS, FAULTS, FILE_FAULT, UNREADABLE, NAME_FAULT, MEMORY, OUTPUT, STATUSES,
];

/// What `play` prints, and what its faults mean.
pub(crate) const PLAYED: &[&str] = &[
    REPLY,
    EVENTS,
    FAULTS,
    FILE_FAULT,
    BLOCK_FAULT,
    ZONE_FAULT,
    WORLD_FAULT,
    LINE_FAULT,
    UNREADABLE,
    MEMORY,
    OUTPUT,
    STATUSES,
];

/// What `storm` prints, and what its faults mean.
pub(crate) const STORMED: &[&str] = &[
    TOTALS,
    FAULTS,
    FILE_FAULT,
    BLOCK_FAULT,
    ZONE_FAULT,
    WORLD_FAULT,
    LINE_FAULT,
    UNREADABLE,
    POOL_FAULT,
    MEMORY,
    OUTPUT,
    STATUSES,
];

/// What `serve` prints, and what its faults mean.
pub(crate) const SERVED: &[&str] = &[
    LISTENS, KEYS, FAULTS, FILE_FAULT, ZONE_FAULT, LINE_FAULT, UNREADABLE, SETTINGS, SOCKET,
    THREADS, MEMORY, OUTPUT, STATUSES,
];

/// What `check-config` prints, and what its faults mean.
pub(crate) const CONFIG_CHECKED: &[&str] = &[
    FINDINGS, KEYS, FAULTS, FILE_FAULT, ZONE_FAULT, LINE_FAULT, UNREADABLE, SETTINGS, SOCKET,
    MEMORY, OUTPUT, STATUSES,
];

/// What `trace` prints, and what its faults mean.
pub(crate) const TRACED: &[&str] = &[
    STEPS, REPLY, KEYS, FAULTS, FILE_FAULT, ZONE_FAULT, LINE_FAULT, UNREADABLE, NAME_FAULT,
    TYPE_FAULT, SETTINGS, MEMORY, OUTPUT, STATUSES,
];
