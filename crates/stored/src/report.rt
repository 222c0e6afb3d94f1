// The lines that are printed.
use crate::answer::{Answer, Fault};
use crate::kind::EntryKind;
use std::io;

// The file is malformed at the entry with the number at. Any bytes may say why.
pub fn malformed(rt: &impl Print, at: u64, why: &[u8]) -> io::Result<()> {
    print!(rt; "malformed at entry {at}: ")?;
    rt.write_all(why)?;
    print!(rt; "\n")
}

// The answer to the entry with the number at is another; its type is given by number.
pub fn difference(
    rt: &impl Print,
    at: u64,
    kind: u8,
    expected: Answer,
    found: Result<Answer, Fault>,
) -> io::Result<()> {
    print!(rt; "entry {at}, type {kind}: expected {expected}, found ")?;
    match found {
        Ok(answer) => print!(rt; "{answer}\n"),
        Err(fault) => print!(rt; "{fault}\n"),
    }
}

// How many entries of the type with the number kind there were, and how many of them differ. A number
// that no type has goes by the name of the last one.
pub fn summary(rt: &impl Print, kind: usize, entries: u64, differences: u64) -> io::Result<()> {
    let name = match kind {
        1..=17 => EntryKind::ALL[kind - 1],
        _ => EntryKind::JudgeForms,
    };
    print!(rt; "type {kind}, {name}: {entries} entries, {differences} differences\n")
}
