//! The example in the head of `master_lexer`.
use master_lexer::{Lead, Word, Words};

pub fn example(text: &[u8]) {
    let mut words = Words::new(text, 1);
    let lead = Lead::of_line(text); // how the first line begins
    match words.next() {
        Some(Word::Plain(bytes)) => {} // as it was written
        Some(Word::Quoted(bytes)) => {} // what stands between the quotes
        Some(Word::Broken) => {} // a fault: nothing after it is read
        None => {} // the entry has no words
    }
    if words.is_at_end() {
        let entry = words.next_entry(); // the line on which it starts, and how that begins
    }
}
