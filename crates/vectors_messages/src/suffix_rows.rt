//! Rows of the names of a message in the writing (RFC 1035, section 4.1.4).
use crate::fault::{Answer, Fault};
use dname::Name;
use std::alloc::Global;
use suffixes::Suffixes;
use vectors::{number, words};

/// `suffixes STEP | STEP..`: `note NAME LABELS PLACE` notes a name of which so many labels are written there, `find
/// NAME` prints its longest suffix.
pub fn put_steps(alloc: Global, rest: &str, out: &mut String) -> Answer {
    let mut names = Suffixes::new(alloc)?;
    for step in rest.split(" | ") {
        take(alloc, &mut names, step, out)?;
    }
    Ok(())
}

fn take(alloc: Global, names: &mut Suffixes, step: &str, out: &mut String) -> Answer {
    match words(alloc, step)?.as_slice() {
        ["note", name, written, at] => {
            let (written, at) = (size(*written)?, size(*at)?);
            Ok(names.note(&Name::from_text(alloc, *name)?, written, at)?)
        }
        ["find", name] => put_found(names, &Name::from_text(alloc, *name)?, out),
        _ => Err(Fault::NotUnderstood),
    }
}

fn size(word: &str) -> Result<usize, Fault> {
    let number = number(word).ok_or(Fault::NotUnderstood)?;
    usize::try_from(number).map_err(|_| Fault::NotUnderstood)
}

fn put_found(names: &Suffixes, name: &Name, out: &mut String) -> Answer {
    write!(out, "{name} ")?;
    match names.longest(name) {
        None => Ok(out.push_str("none\n")?),
        Some(found) => {
            let (labels, bytes, place) = (found.labels, found.bytes, found.place);
            Ok(writeln!(out, "labels {labels}, bytes {bytes}, then {place}")?)
        }
    }
}
