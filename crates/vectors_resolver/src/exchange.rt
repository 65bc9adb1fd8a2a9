//! Rows about one ask, and about replies to clients. `asking PATH NUMBER SERVER ID NAME TYPE` is an ask, for port 53; `sent` shows how
//! it goes out. `answer-late CLIENT WAY BYTES` is what a client gets whose query's deadline is over.
use crate::replies::way;
use crate::row::Row;
use crate::shown::put_action;
use causes::Cause;
use events::{Action, Ask, Bytes, ClientQuery, Path, read_asked, refuse, reply_to, send};
use front::{Outcome, Refusal, Request, SharedEcho, Start, lent_echo};
use std::alloc::Global;
use text_lines::LineKind;
use wire::{TCP_LIMIT, Via, Writer};

const PORT: u16 = 53;

/// An ask, once a row has made one.
#[derive(Drop)]
pub struct Exchange {
    ask: Option<Ask>,
}

/// These bytes as those of a message.
pub fn bounded(bytes: Vec<u8>) -> Result<Bytes, LineKind> {
    if bytes.len() > TCP_LIMIT {
        return Err(LineKind::BadHex);
    }
    Ok(Bytes::new(bytes))
}

fn path(row: &mut Row<'_>) -> Result<Path, LineKind> {
    match row.word()? {
        "udp" => Ok(Path::Udp(row.short()?)),
        "tcp" => Ok(Path::Tcp(row.number()?)),
        _ => Err(LineKind::UnknownWord),
    }
}

fn ask(row: &mut Row<'_>) -> Result<Ask, LineKind> {
    let path = path(row)?;
    let server = row.address()?;
    let id = row.short()?;
    let word = row.word()?;
    let kind = row.rtype()?;
    Ok(Ask {
        path,
        server,
        id,
        name: text_lines::name(row.alloc, word)?,
        kind,
    })
}

impl Exchange {
    /// No ask.
    pub fn new() -> Exchange {
        Exchange { ask: None }
    }

    /// What comes of a row.
    pub fn perform(&mut self, row: &mut Row<'_>, out: &mut String) -> Result<(), LineKind> {
        match row.command {
            "asking" => self.begin(row),
            "sent" => self.put_sent(row, out),
            _ => put_late_answer(row, out),
        }
    }

    fn begin(&mut self, row: &mut Row<'_>) -> Result<(), LineKind> {
        self.ask = Some(ask(row)?);
        Ok(())
    }

    fn ask(&self) -> Result<&Ask, LineKind> {
        self.ask.as_ref().ok_or(LineKind::UnknownWord)
    }

    fn put_sent(&self, row: &Row<'_>, out: &mut String) -> Result<(), LineKind> {
        let action = send(row.alloc, PORT, self.ask()?)?;
        put_made(out, action)
    }
}

fn late_reply(alloc: Global, asked: &ClientQuery) -> Result<Action, LineKind> {
    let mut writer = Writer::new(alloc)?;
    let outcome = Outcome::Fail(Cause::DeadlineOver);
    let action = reply_to(&mut writer, asked, &outcome);
    drop(outcome);
    Ok(action?)
}

fn refused(
    alloc: Global,
    client: u64,
    way: Via,
    refusal: Refusal,
    start: Start,
    echo: &Option<SharedEcho>,
) -> Result<Action, LineKind> {
    let mut writer = Writer::new(alloc)?;
    Ok(refuse(&mut writer, client, way, refusal, start, lent_echo(echo))?)
}

// What the client gets; nothing where there is nothing to answer.
fn put_answer(
    alloc: Global,
    client: u64,
    way: Via,
    request: Request,
    out: &mut String,
) -> Result<(), LineKind> {
    match request {
        Request::Drop => Ok(out.push_str("nothing\n")?),
        Request::Refuse(refusal, start, echo) => {
            let action = refused(alloc, client, way, refusal, start, &echo);
            drop(echo);
            put_made(out, action?)
        }
        Request::Query(query) => {
            let asked = ClientQuery { client, way, query };
            let action = late_reply(alloc, &asked);
            drop(asked);
            put_made(out, action?)
        }
    }
}

fn put_made(out: &mut String, action: Action) -> Result<(), LineKind> {
    let put = put_action(out, &action);
    drop(action);
    put
}

fn request(row: &mut Row<'_>) -> Result<Request, LineKind> {
    let bytes = row.bytes()?;
    Ok(read_asked(row.alloc, &bytes)?)
}

fn put_late_answer(row: &mut Row<'_>, out: &mut String) -> Result<(), LineKind> {
    let client = row.number()?;
    let way = way(row)?;
    let request = request(row)?;
    put_answer(row.alloc, client, way, request, out)
}
