//! Scripts read.
//!
//! `at MS` is the moment of what follows. `ask NAME TYPE` is a client's query and `raw HEX` a client's bytes, over TCP
//! where `tcp` stands behind, without recursion where `norec` stands behind that. `carry K`, `cut K` and `lose K` say
//! what comes of the send of number K; `run` carries all that are left; `tick` is a step of the clock. Blank lines and
//! lines that begin with `;` are skipped. Words are parted by spaces and tabs.
ghost use Rattle.std.specs.Prelude.{◌≡◌, Ok, Err, map, MatchResult};
ghost use Rattle.text_lines.specs.Faults.{IsLineFault};
ghost use Rattle.text_lines.specs.Texts.{IsTextFault, stated_words};
ghost use Rattle.script.specs.Orders.{order_seen, asks_of, orders_of, said, script_of};

use crate::keyword::{Keyword, Scope};
use crate::order::{Order, order_of};
use memory::Heap;
use text_lines::{LineError, LineKind, LineWords, TextLines};

/// The orders of a script. Refused by its first bad line, counted from 1: an unknown first or last word, a number out of
/// its limits, a name or type that is none, too few or too many words, bad hexadecimal digits.
pub fn read_script<A: Heap>(alloc: A, text: &str) -> Result<Vec<Order<A>, A>, LineError>
    ensures { MatchResult result (λ v. script_of text.now ≡ Ok (map order_seen v.items)) (λ e. IsTextFault e (script_of text.now)) }
{
    read_orders(alloc, Scope::Whole, text)
}

/// The same of a script that may only ask: it has `at` and `ask` lines alone, and any other first word is unknown.
pub fn read_asks<A: Heap>(alloc: A, text: &str) -> Result<Vec<Order<A>, A>, LineError>
    ensures { MatchResult result (λ v. asks_of text.now ≡ Ok (map order_seen v.items)) (λ e. IsTextFault e (asks_of text.now)) }
{
    read_orders(alloc, Scope::Asks, text)
}

fn read_orders<A: Heap>(alloc: A, scope: Scope, text: &str) -> Result<Vec<Order<A>, A>, LineError>
    ensures { MatchResult result (λ v. orders_of scope text.now ≡ Ok (map order_seen v.items)) (λ e. IsTextFault e (orders_of scope text.now)) }
{
    let mut orders = Vec::new(alloc);
    let mut number = 1usize;
    for line in TextLines::new(text) {
        match take_line(alloc, scope, &mut orders, line) {
            Ok(()) => {}
            Err(kind) => {
                return Err(LineError { line: number, kind });
            }
        }
        number = number.saturating_add(1);
    }
    Ok(orders)
}

// Takes a line of the script: an order, or nothing where it is blank or a comment.
fn take_line<A: Heap>(
    alloc: A,
    scope: Scope,
    orders: &mut Vec<Order<A>, A>,
    line: &str,
) -> Result<(), LineKind>
    ensures { MatchResult result (λ _. said scope (map order_seen orders.old.items) (stated_words line.now) ≡ Ok (map order_seen orders.new.items)) (λ e. IsLineFault e (said scope (map order_seen orders.old.items) (stated_words line.now))) }
{
    let mut words = LineWords::stated(line);
    let Some(first) = words.next() else {
        return Ok(());
    };
    match Keyword::in_scope(scope, first) {
        None => Err(LineKind::UnknownWord),
        Some(keyword) => {
            orders.push(order_of(alloc, keyword, words)?)?;
            Ok(())
        }
    }
}
