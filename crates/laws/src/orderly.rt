//! One reply and one open ask: functions that do nothing, whose clauses are proved.

ghost use Rattle.laws.specs.Laws.{OneAction, MoreDueAtTicks, NeverAgain, OneReply, OneComing, OpenByRun, FewAsks, OneLine, OthersStay, DueInOrder};
ghost use Rattle.laws.specs.Determined.{OneCall, OneReading, OneStep};
ghost use Rattle.laws.specs.FirstStates.{RoomStays};
ghost use Rattle.laws.specs.LookUps.{FewLookUps, LookUpsAreSpent, StepsAreShort};
ghost use Rattle.laws.specs.Meant.{ServedIsMeant, AtHandIsReplied, NobodyFailingIsAsked, OpenIsOfRun};
ghost use Rattle.laws.specs.OwnWork.{OrderIsKept};
ghost use Rattle.laws.specs.Times.{NothingIsLate};
ghost use Rattle.laws.specs.Words.{WordsInOrder};

/// Over every run, whatever comes. A step that serves a query gives one reply or one ask of it, and bytes that are no
/// query are dropped. A query has one Client step, one reply at most and 40 asks at most, and is never served again
/// when it is over. Servers' names have 64 turns for it at most, and where it fails for that they had 64; no step takes
/// more than 488 rules. The open queries are those whose last step sent an ask, which is their one open ask. No two
/// open asks over UDP agree in socket, server and ID (RFC 5452, section 4).
pub fn discipline_law()
    ensures action { OneAction }
    ensures coming { OneComing }
    ensures reply { OneReply }
    ensures never_again { NeverAgain }
    ensures waits { OpenByRun }
    ensures asks { FewAsks }
    ensures look_ups { FewLookUps }
    ensures looked_out { LookUpsAreSpent }
    ensures short { StepsAreShort }
    ensures line { OneLine }
{}

/// Over every run. A query is served by its own coming, by a message that is accepted for its open ask, by the end of
/// its ask over TCP, or by a tick when it is due, and in no other step. A request that is dropped, refused, or without
/// RD is over in its own step. Over UDP no server is asked that lately failed to answer the same (RFC 2308, section
/// 7.1). The fields of an open query are the run's: its client, its deadline and the end of its ask's wait, its type,
/// its chain, and how many asks and look-ups there were.
pub fn meant_law()
    ensures served { ServedIsMeant }
    ensures at_hand { AtHandIsReplied }
    ensures free { NobodyFailingIsAsked }
    ensures shown { OpenIsOfRun }
{}

/// An event changes no open query but the one that it serves.
pub fn isolation_law()
    ensures { OthersStay }
{}

/// A tick serves the query that is due first, the older one among equals, and answers it where its time is up. Word
/// that another query is due is given at ticks alone, and exactly where one is. Nothing is sent for a query once ten
/// seconds have passed since it came, whatever comes.
pub fn due_law()
    ensures order { DueInOrder }
    ensures late { NothingIsLate }
    ensures ticks { MoreDueAtTicks }
{}

/// The socket and the ID of each ask are those of a word of the first state's stream, which comes from a seed. It is
/// the first word that no ask before it had, words aside that were taken in a step that ran out of memory.
pub fn words_law()
    ensures { WordsInOrder }
{}

/// The capacity of each store is that of the first state.
pub fn room_law()
    ensures { RoomStays }
{}

/// Where memory runs out in a step, the stores stand as they did, or as the work on its own query left them. The input
/// was written, or part of it: a penalty as this input writes it, and one whole link or delegation at most. Then the
/// entries that the query's look-ups used came to the front, one after another, and nothing else moved.
pub fn starved_law()
    ensures { OrderIsKept }
{}

/// The outcome is determined. One input to the work on a query has one result, whichever rules lead to it, with one
/// entry that is cached and the same hits in the cache. Over every run, two steps from one state by one event, neither
/// of which runs out of memory, serve the same query, give the same actions and lead to the same state. What they cache
/// and find in the cache is the same, too.
pub fn determined_law()
    ensures call { OneCall }
    ensures step { OneStep }
    ensures reading { OneReading }
{}
