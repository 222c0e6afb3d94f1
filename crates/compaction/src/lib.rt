// Compacting the atom table: atoms without a term go, the others are renumbered in order.
#![tactic(auto)]

ghost use Rattle.std.specs.Prelude.{◌≡◌, true, false, ◌+◌, ◌-◌, ◌≤◌, length, []};
ghost use Rattle.semilinear.specs.Items.{after_atoms};
ghost use Rattle.base.specs.Put.{padded};
ghost use Rattle.semilinear.specs.Valid.{front_ok, is_semilinear};
ghost use Rattle.semilinear.specs.DecodeForm.{read_form, read_rows};
ghost use Rattle.semilinear.specs.Outcome.{form_outcome};
ghost use Rattle.semilinear.specs.Answers.{GivesForm};
ghost use Rattle.compaction.specs.Compact.{TermsCopied, FrontCopied, compact_form};
ghost use Rattle.compaction.specs.Compact.{compact_atom_table};
ghost use Rattle.base.specs.Limits.{form_bytes, record_length};

use atom_table::table::Written;
use atom_table::{read, table};
use base::limits;
use base::refusal::Refusal;
use semilinear::items::{Rows, Terms};
use semilinear::outcome::Answer;
use semilinear::{items, scan};

// The terms q are put into out from `to` on, numbered from 0 in their order.
fn copy_terms(q: &[u8], w: u8, out: &mut [u8], to: usize) -> Written
    requires { (to + length q.now ≤ length out.old) × (length q.now ≤ form_bytes) }
    ensures { TermsCopied w to q.now out.old out.new result }
{
    let mut x = Written { used: to, terms: 0 };
    for term in Terms::of(q) {
        table::put_term(out, x.used, x.terms, term.coeff, w);
        x.used += limits::RECORD_LENGTH;
        x.terms += 1;
    }
    x
}

// The rows of f that have a term are put into out: their atoms, with new heads, and then their terms.
fn copy_front(f: &[u8], w: u8, out: &mut [u8]) -> Written
    requires { (front_ok w f.now ≡ true) × (length f.now ≤ form_bytes - record_length) × (out.old ≡ padded form_bytes []) }
    ensures { FrontCopied w form_bytes (read_rows 0 f.now (after_atoms f.now)) out.new result }
{
    let terms = scan::terms_at(f);
    let mut to = 0;
    for row in Rows::of(f, terms) {
        if row.coeff.is_some() {
            table::put_atom(out, to, row.atom.tree, row.atom.hash, w);
            to += row.atom.len();
        }
    }
    copy_terms(items::rest_from(f, terms), w, out, to)
}

// Compacts a form into a slice of 57,360 bytes, which is all zeros.
fn compact_form(s: &[u8], out: &mut [u8]) -> Result<Answer, Refusal>
    requires { (is_semilinear s.now ≡ true) × (length s.now ≤ form_bytes) × (out.old ≡ padded form_bytes []) }
    ensures { GivesForm (form_outcome (compact_form (read_form s.now)) false) form_bytes result out.new }
{
    let w = record::width(s);
    let constant = record::literal(s);
    let copied = copy_front(record::body(s), w, out);
    let used = copied.used;
    table::put_sum(out, used, constant, w);
    Ok(Answer {
        used: (used + limits::RECORD_LENGTH) as u64,
        terms: copied.terms,
        flag: false,
    })
}

// The form s without the atoms that have no term, written to out; or a refusal: 1, 2 or 10.
pub fn compact_atom_table(s: &[u8], out: &mut [u8]) -> Result<Answer, Refusal>
    ensures { GivesForm (compact_atom_table s.now (length out.old)) (length out.old) result out.new }
{
    read::open_bytes(s, out)?;
    compact_form(s, out)
}
