// The begin and the end of a pass: the atoms are copied with new heads, and the terms and the sum
// record follow.
ghost use Rattle.std.specs.Prelude.{◌≡◌, true, [], ◌+◌, ◌^◌, ◌<◌, ◌≤◌, length};
ghost use Rattle.base.specs.Put.{padded};
ghost use Rattle.semilinear.specs.Valid.{atoms_ok, is_semilinear};
ghost use Rattle.semilinear.specs.DecodeForm.{read_form};
ghost use Rattle.atom_table.specs.Table.{AtomsPut};
ghost use Rattle.atom_table.specs.Terms.{coeffs_in, TermPut, TermsRoom, TermsPut, Copied, FinishRoom, Finished};
ghost use Rattle.base.specs.Limits.{form_bytes, record_length};

use crate::table;
use crate::table::{Table, Written};
use base::limits;
use base::refusal::Refusal;
use semilinear::items::Atoms;
use semilinear::outcome;
use semilinear::outcome::Answer;

// Puts the atoms at the front of f into out from its start on, each with a new head.
fn put_atoms(f: &[u8], w: u8, out: &mut [u8]) -> Table
    requires { (atoms_ok w f.now ≡ true) × (length f.now ≤ length out.old) }
    ensures { AtomsPut w f.now out.old out.new result }
{
    let mut at = 0;
    let mut count: u64 = 0;
    let mut records: u64 = 0;
    for atom in Atoms::of(f) {
        table::put_atom(out, at, atom.tree, atom.hash, w);
        count += 1;
        records += atom.size;
        at += atom.len();
    }
    Table {
        at,
        count,
        records,
        full: false,
    }
}

// Copies the atoms of the form s to the start of out, which is all zeros, with new heads.
pub fn copy_atoms(s: &[u8], out: &mut [u8]) -> Table
    requires { (is_semilinear s.now ≡ true) × (out.old ≡ padded form_bytes []) }
    ensures { Copied (read_form s.now) result out.new }
{
    put_atoms(record::body(s), record::width(s), out)
}

// The term of atom i with the coefficient c is put behind those before it; none where c is 0.
fn put_row(x: Written, i: u64, c: u64, w: u8, out: &mut [u8]) -> Written
    requires { (x.used + record_length ≤ length out.old) × (i < 2 ^ 16) × (x.terms < 2 ^ 16) }
    ensures { TermPut w i c x out.old out.new result }
{
    if c == 0 {
        return x;
    }
    let used = x.used;
    table::put_term(out, used, i, c, w);
    Written {
        used: used + limits::RECORD_LENGTH,
        terms: x.terms + 1,
    }
}

// The terms of n coefficients, which stand `step` words apart, are put into out from `to` on.
fn put_terms(words: &[u64], step: usize, n: usize, w: u8, out: &mut [u8], to: usize) -> Written
    requires { TermsRoom step n to words.now out.old }
    ensures { TermsPut w to (coeffs_in step words.now n)
        out.old out.new result }
{
    let mut x = Written { used: to, terms: 0 };
    for i in 0..n {
        x = put_row(x, i as u64, words[step * i], w, out);
    }
    x
}

// Writes the terms, whose coefficients stand `step` words apart, and the sum record behind the atoms;
// or refuses by 9 where the table is full.
pub fn finish(
    tab: Table,
    words: &[u64],
    step: usize,
    constant: u64,
    w: u8,
    flag: bool,
    out: &mut [u8],
) -> Result<Answer, Refusal>
    requires { FinishRoom tab step words.now out.old }
    ensures { Finished w tab step words.now constant flag
        out.old result out.new }
{
    if tab.full {
        return outcome::refuse(out, Refusal::TooLarge);
    }
    let n = tab.count as usize;
    let at = tab.at;
    let written = put_terms(words, step, n, w, out, at);
    let used = written.used;
    table::put_sum(out, used, constant, w);
    Ok(Answer {
        used: (used + limits::RECORD_LENGTH) as u64,
        terms: written.terms,
        flag,
    })
}
