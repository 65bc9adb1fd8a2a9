//! Rows of names.
use crate::fault::{Answer, Fault};
use dname::{Name, NameError, Suffix};
use std::alloc::Global;
use std::cmp::Ordering;
use std::collections::HashMap;
use std::hash::{BuildHasherDefault, FoldHasher};
use vectors::{first_word, number, put_bytes, words};

/// Answers a command of names.
pub fn answer(alloc: Global, command: &str, rest: &str, out: &mut String) -> Answer {
    match command {
        "name" => put_read(out, Name::from_text(alloc, rest)),
        "relative" => put_relative(alloc, rest, out),
        "size" => put_size(alloc, rest, out),
        "order" => put_order(alloc, rest, out),
        "under" => put_under(alloc, rest, out),
        "stars" => put_stars(alloc, rest, out),
        _ => answer_whole(alloc, command, rest, out),
    }
}

fn answer_whole(alloc: Global, command: &str, rest: &str, out: &mut String) -> Answer {
    match command {
        "above" => put_above(alloc, rest, out),
        "labels" => put_labels(alloc, rest, out),
        "shown" => put_shown(alloc, rest, out),
        "copy" => put_copy(alloc, rest, out),
        "replace" => put_replaced(alloc, rest, out),
        "keys" => put_keys(alloc, rest, out),
        _ => Err(Fault::NotUnderstood),
    }
}

// How the name is written, or why it is none.
fn put_read(out: &mut String, read: Result<Name, NameError>) -> Answer {
    match read {
        Ok(name) => {
            let text = name.to_text()?;
            Ok(writeln!(out, "{}", text.as_str())?)
        }
        Err(error) => put_refusal(out, error),
    }
}

fn put_refusal(out: &mut String, error: NameError) -> Answer {
    let number = error.number();
    match error {
        NameError::Memory => Err(Fault::Memory),
        _ => Ok(writeln!(out, "refused {number}: {error}")?),
    }
}

// `relative ORIGIN TEXT`: a name of a master file.
fn put_relative(alloc: Global, rest: &str, out: &mut String) -> Answer {
    let (origin, text) = first_word(rest);
    let origin = Name::from_text(alloc, origin)?;
    put_read(out, Name::under(alloc, text.as_bytes(), &origin))
}

// `size TEXT SIZE..`: the bytes of the name of labels of these sizes, with a name under it, `-` for none.
fn put_size(alloc: Global, rest: &str, out: &mut String) -> Answer {
    let (text, sizes) = first_word(rest);
    let labels = labels_of_sizes(alloc, sizes)?;
    match read_under(alloc, text, labels.as_str()) {
        Ok(name) => Ok(writeln!(out, "{} bytes", name.size())?),
        Err(error) => put_refusal(out, error),
    }
}

fn read_under(alloc: Global, text: &str, labels: &str) -> Result<Name, NameError> {
    let origin = Name::from_text(alloc, labels)?;
    match text {
        "-" => Ok(origin),
        text => Name::under(alloc, text.as_bytes(), &origin),
    }
}

// Labels of `a` of these sizes, each with a dot behind it.
fn labels_of_sizes(alloc: Global, sizes: &str) -> Result<String, Fault> {
    let mut text = String::new(alloc);
    for word in sizes.split(' ') {
        let size = number(word).ok_or(Fault::NotUnderstood)?;
        for _ in 0..size {
            text.push('a')?;
        }
        text.push('.')?;
    }
    Ok(text)
}

// `order NAME..`: how each is to the next (RFC 4034, section 6.1).
fn put_order(alloc: Global, rest: &str, out: &mut String) -> Answer {
    let mut before = None;
    for word in rest.split(' ') {
        let name = Name::from_text(alloc, word)?;
        put_sign(out, before.as_ref(), &name)?;
        write!(out, "{name}")?;
        before = Some(name);
    }
    Ok(out.push('\n')?)
}

fn put_sign(out: &mut String, before: Option<&Name>, name: &Name) -> Answer {
    match before {
        None => Ok(()),
        Some(before) => Ok(out.push_str(sign(before < name, before.cmp(name)))?),
    }
}

/// The sign of an order, where `<` and `cmp` agree.
pub fn sign(less: bool, order: Ordering) -> &'static str {
    match (less, order) {
        (true, Ordering::Less) => " < ",
        (false, Ordering::Equal) => " = ",
        (false, Ordering::Greater) => " > ",
        _ => " ? ",
    }
}

// `under NAME OTHER`: whether the name is the other one or beneath it.
fn put_under(alloc: Global, rest: &str, out: &mut String) -> Answer {
    let (text, other) = first_word(rest);
    let name = Name::from_text(alloc, text)?;
    let is_under = name.is_at_or_under(&Name::from_text(alloc, other)?);
    Ok(writeln!(
        out,
        "{}",
        if is_under { "at or under" } else { "not under" }
    )?)
}

// `stars NAME ORIGIN`: which stars the name has.
fn put_stars(alloc: Global, rest: &str, out: &mut String) -> Answer {
    let (text, origin) = first_word(rest);
    let name = Name::from_text(alloc, text)?;
    let is_of_origin = name.is_wildcard_of(&Name::from_text(alloc, origin)?);
    let said = match (name.is_wildcard(), name.has_inner_star(), is_of_origin) {
        (false, false, false) => "no star",
        (true, false, false) => "wildcard of another name",
        (true, false, true) => "wildcard of it",
        (false, true, false) => "inner star",
        _ => "stars that exclude each other",
    };
    Ok(writeln!(out, "{said}")?)
}

// `above NAME`: the names above it, three ways, up to the root and once more.
fn put_above(alloc: Global, rest: &str, out: &mut String) -> Answer {
    let whole = Name::from_text(alloc, rest)?;
    let mut name = Name::from_text(alloc, rest)?;
    let mut lent = whole.suffix();
    put_place(out, &name, &lent, &whole)?;
    for _ in 0..=whole.labels() {
        put_parent(out, &name)?;
        put_ascent(out, &mut name, &mut lent)?;
        put_place(out, &name, &lent, &whole)?;
    }
    Ok(())
}

fn put_place(out: &mut String, name: &Name, lent: &Suffix<'_>, whole: &Name) -> Answer {
    let (labels, is_root, is_whole) = (name.labels(), name.is_root(), lent.is(whole));
    Ok(writeln!(
        out,
        "labels {labels}, root {is_root}, lent whole {is_whole}"
    )?)
}

fn put_parent(out: &mut String, name: &Name) -> Answer {
    match name.parent()? {
        Some(parent) => Ok(write!(out, "parent {parent}, ")?),
        None => Ok(out.push_str("no parent, ")?),
    }
}

fn put_ascent(out: &mut String, name: &mut Name, lent: &mut Suffix<'_>) -> Answer {
    let itself = ascent(name.ascend());
    write!(out, "itself {itself} {name}, ")?;
    let itself = ascent(lent.ascend());
    write!(out, "lent {itself} ")?;
    put_bytes(out, lent.wire())?;
    Ok(out.push('\n')?)
}

fn ascent(ascends: bool) -> &'static str {
    if ascends { "ascends to" } else { "stays" }
}

// `labels NAME`: its labels, and what comes behind them, twice.
fn put_labels(alloc: Global, rest: &str, out: &mut String) -> Answer {
    let name = Name::from_text(alloc, rest)?;
    let mut labels = name.iter();
    for _ in 0..name.labels().saturating_add(2) {
        match labels.next() {
            Some(label) => put_bytes(out, label)?,
            None => out.push_str("none")?,
        }
        out.push('\n')?;
    }
    Ok(())
}

// `shown NAME`: in words, and for logs.
fn put_shown(alloc: Global, rest: &str, out: &mut String) -> Answer {
    let name = Name::from_text(alloc, rest)?;
    Ok(writeln!(out, "{name} {name:?}")?)
}

// `copy NAME`: whether a copy is the name, its wire form and its first label.
fn put_copy(alloc: Global, rest: &str, out: &mut String) -> Answer {
    let name = Name::from_text(alloc, rest)?;
    let copy = name.clone()?;
    write!(out, "equal {}, wire ", copy == name)?;
    put_bytes(out, copy.wire())?;
    out.push_str(", first ")?;
    put_bytes(out, copy.first().unwrap_or(b""))?;
    Ok(out.push('\n')?)
}

// `replace NAME OTHER..`: a name that becomes each of the others in turn.
fn put_replaced(alloc: Global, rest: &str, out: &mut String) -> Answer {
    let (first, others) = first_word(rest);
    let mut name = Name::from_text(alloc, first)?;
    for text in others.split(' ') {
        let other = Name::from_text(alloc, text)?;
        let copied = name.copy_from(&other);
        drop(other);
        copied?;
        writeln!(out, "{name}")?;
    }
    Ok(())
}

type Places = HashMap<Name, usize, BuildHasherDefault<FoldHasher>, Global>;

// `keys NAME KEY..`: how many keys differ, and the number of the last one that is the name, from 1 on.
fn put_keys(alloc: Global, rest: &str, out: &mut String) -> Answer {
    let (text, keys) = first_word(rest);
    let mut places: Places = HashMap::new(alloc);
    for (place, key) in words(alloc, keys)?.iter().enumerate() {
        let _ = places.insert(Name::from_text(alloc, *key)?, place)?;
    }
    let place = places.get(&Name::from_text(alloc, text)?).copied();
    let last = place.map_or(0, |place| place.saturating_add(1));
    Ok(writeln!(out, "{} keys, {last} the last", places.len())?)
}
