//! An ask of a server as a line.
ghost use Rattle.std.specs.Prelude.{◌≡◌, ◌⊎◌, ◌++◌, OnOk, OnErr, string_bytes};
ghost use Rattle.reply_lines.specs.Lines.{AreNone};
ghost use Rattle.reply_lines.specs.Asks.{IsAskPrinted, ask_text, asked_text, kind_text, question_text, way_word};

use dname::put_name;
use memory::{Heap, Starved};
use rdata::{Addr, RType, put_ipv4};
use std::alloc::Allocator;
use wire::{Message, Question, Via, WireError, decode};

/// Appends the line of an ask: `send NUMBER ADDRESS NAME TYPE`, or `tcp` in place of `send` over TCP, with the
/// question of the ask's bytes. Nothing is appended where they are no message, and where memory is refused.
pub fn put_ask_bytes<A: Heap, B: Heap>(
    alloc: A,
    out: &mut String<B>,
    number: u64,
    way: Via,
    server: Addr,
    bytes: &[u8],
) -> Result<(), Starved>
    ensures ok { OnOk result (IsAskPrinted bytes.now number way server.0 (string_bytes out.old) (string_bytes out.new) ⊎ AreNone bytes.now (string_bytes out.old) (string_bytes out.new)) }
    ensures err { OnErr result (string_bytes out.new ≡ string_bytes out.old) }
{
    match decode(alloc, bytes) {
        Ok(message) => put_ask(out, number, way, server, &message),
        Err(WireError::Memory) => Err(Starved),
        Err(_) => Ok(()),
    }
}

// The line is written apart first, so that none of it stands where memory is refused.
fn put_ask<A: Allocator, B: Heap>(
    out: &mut String<B>,
    number: u64,
    way: Via,
    server: Addr,
    message: &Message<A>,
) -> Result<(), Starved>
    ensures ok { OnOk result (string_bytes out.new ≡ string_bytes out.old ++ ask_text number way server.0 message.now.questions) }
    ensures err { OnErr result (string_bytes out.new ≡ string_bytes out.old) }
{
    let mut text = String::new(*out.allocator());
    put_line(&mut text, number, way, server, message)?;
    Ok(out.push_str(&text)?)
}

#[tactic(auto, unfolding(crate::specs::Asks::ask_text))]
fn put_line<A: Allocator, B: Heap>(
    out: &mut String<B>,
    number: u64,
    way: Via,
    server: Addr,
    message: &Message<A>,
) -> Result<(), Starved>
    ensures { OnOk result (string_bytes out.new ≡ string_bytes out.old ++ ask_text number way server.0 message.now.questions) }
{
    out.push_str(way_word(way))?;
    write!(out, " {number} ")?;
    put_ipv4(out, &server.0)?;
    put_questions(out, message.questions.as_slice())?;
    out.push('\n')?;
    Ok(())
}

// The word that an ask's line begins with.
fn way_word(way: Via) -> &'static str
    ensures { result.now ≡ way_word way }
{
    match way {
        Via::Udp => "send",
        Via::Tcp => "tcp",
    }
}

// What is asked: an ask has one question.
fn put_questions<A: Allocator, B: Heap>(
    out: &mut String<B>,
    questions: &[Question<A>],
) -> Result<(), Starved>
    ensures { OnOk result (string_bytes out.new ≡ string_bytes out.old ++ asked_text questions.now) }
{
    for question in questions {
        put_question(out, question)?;
    }
    Ok(())
}

#[tactic(auto, unfolding(crate::specs::Asks::question_text))]
fn put_question<A: Allocator, B: Heap>(
    out: &mut String<B>,
    question: &Question<A>,
) -> Result<(), Starved>
    ensures { OnOk result (string_bytes out.new ≡ string_bytes out.old ++ question_text question.now) }
{
    out.push(' ')?;
    put_name(out, &question.name)?;
    out.push(' ')?;
    put_kind(out, question.qtype)
}

// The word of a type; the number of one without a word.
fn put_kind<B: Heap>(out: &mut String<B>, number: u16) -> Result<(), Starved>
    ensures { OnOk result (string_bytes out.new ≡ string_bytes out.old ++ kind_text number) }
{
    match RType::from_number(number) {
        Some(kind) => out.push_str(kind.word())?,
        None => write!(out, "{number}")?,
    }
    Ok(())
}
