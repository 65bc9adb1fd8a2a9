//! Typed events and actions, copied. The data of an RRset are shared.
ghost use Rattle.std.specs.Prelude.{◌≡◌, IfOk};

use crate::action::{TypedAction, TypedActions};
use crate::boxed::BoxedReading;
use crate::event::Parsed;
use front::SharedEcho;
use memory::{Heap, Starved};

impl<A: Heap> Parsed<A> {
    /// The same, copied.
    pub fn copied(&self) -> Result<Parsed<A>, Starved>
        ensures { IfOk result (λ p. p ≡ self.now) }
    {
        Ok(match *self {
            Parsed::Client {
                moment,
                client,
                way,
                ref request,
            } => Parsed::Client {
                moment,
                client,
                way,
                request: request.clone()?,
            },
            Parsed::Datagram {
                moment,
                socket,
                from,
                ref reading,
            } => Parsed::Datagram {
                moment,
                socket,
                from,
                reading: reading.clone()?,
            },
            Parsed::TcpReply {
                moment,
                number,
                ref reading,
            } => Parsed::TcpReply {
                moment,
                number,
                reading: copied_reading(reading)?,
            },
            Parsed::TcpFailed { moment, number } => Parsed::TcpFailed { moment, number },
            Parsed::Tick { moment } => Parsed::Tick { moment },
        })
    }
}

fn copied_reading<A: Heap>(
    reading: &Option<BoxedReading<A>>,
) -> Result<Option<BoxedReading<A>>, Starved>
    ensures { IfOk result (λ r. r ≡ reading.now) }
{
    match reading {
        None => Ok(None),
        Some(reading) => Ok(Some(reading.clone()?)),
    }
}

impl<A: Heap> TypedAction<A> {
    /// The same action, copied.
    pub fn copied(&self) -> Result<TypedAction<A>, Starved>
        ensures { IfOk result (λ a. a ≡ self.now) }
    {
        match self {
            TypedAction::Reply {
                client_query,
                outcome,
            } => Ok(TypedAction::Reply {
                client_query: client_query.clone()?,
                outcome: outcome.clone()?,
            }),
            TypedAction::Refusal {
                client,
                way,
                refusal,
                start,
                echo,
            } => Ok(TypedAction::Refusal {
                client: *client,
                way: *way,
                refusal: *refusal,
                start: *start,
                echo: copied_echo(echo)?,
            }),
            TypedAction::Ask { port, ask } => Ok(TypedAction::Ask {
                port: *port,
                ask: ask.clone()?,
            }),
        }
    }
}

fn copied_echo<A: Heap>(echo: &Option<SharedEcho<A>>) -> Result<Option<SharedEcho<A>>, Starved>
    ensures { IfOk result (λ e. e ≡ echo.now) }
{
    match echo {
        None => Ok(None),
        Some(echo) => Ok(Some(echo.clone()?)),
    }
}

impl<A: Heap> TypedActions<A> {
    /// The same result, copied.
    pub fn copied(&self) -> Result<TypedActions<A>, Starved>
        ensures { IfOk result (λ a. a ≡ self.now) }
    {
        let first = match &self.first {
            None => None,
            Some(action) => Some(action.copied()?),
        };
        Ok(TypedActions {
            first,
            more_due: self.more_due,
        })
    }
}
