// Normalising an expression to its semilinear form: the descent collects a constant and weighted
// atoms, and the atoms make the table.
#![tactic(auto)]

pub mod form;

ghost use Rattle.std.specs.Prelude.{true, ◌≡◌, ◌*◌, ◌≤◌, length};
ghost use Rattle.record.specs.Decode.{decode};
ghost use Rattle.expr_refusal.specs.Refusal.{tree_refusal};
ghost use Rattle.semilinear.specs.Answers.{GivesForm};
ghost use Rattle.normalizer_laws.specs.Normalize.{normalize_tree, normalize_to_semilinear};
ghost use Rattle.rules_laws.specs.Rules.{ruled_tree, normalize_ruled, normalize_by_rules};
ghost use Rattle.base.specs.Refusal.{number_of};
ghost use Rattle.base.specs.Limits.{expr_bytes, form_bytes, record_length};
ghost use Rattle.semilinear_normalizer.specs.WorkRoom.{WorkRoom, Sizes, descended};
ghost use Rattle.semilinear_normalizer.specs.Copy.{CopyRoom, Copied};
ghost use Rattle.semilinear_normalizer.specs.FileRefusal.{file_refusal};

use base::limits;
use base::refusal::Refusal;
use descent::collect::{Atom, Descent};
use register::index::Entry;
use semilinear::outcome;
use semilinear::outcome::Answer;
use ways::marks;
use ways::side::Spot;

// A file of at most so many records is worked on in short arrays.
const SHORT_RECORDS: usize = 64;

const SHORT_BYTES: usize = SHORT_RECORDS * limits::RECORD_LENGTH;

const LONG_RECORDS: usize = limits::EXPR_RECORDS;

const LONG_BYTES: usize = limits::EXPR_BYTES;

// The bytes of a tree: those of a subtree, a literal and an And.
const SHORT_TREE: usize = (SHORT_RECORDS + 2) * limits::RECORD_LENGTH;

const LONG_TREE: usize = (LONG_RECORDS + 2) * limits::RECORD_LENGTH;

// The atoms of a table: at most one for each record.
const SHORT_ATOMS: usize = SHORT_RECORDS;

const LONG_ATOMS: usize = limits::ATOM_LIMIT;

// The form of the accepted expression t, written to a slice of 57,360 bytes; or 8 or 9. With `nots`
// a Not over an Add, Mul or Neg is turned. All room to work in is lent: a mark and an atom for
// each record, a tree's bytes, and an entry for each atom of the table, of which there are at most
// 256 and at most one for each record.
pub fn normalize_tree(
    t: &[u8],
    w: u8,
    nots: bool,
    marks: &mut [u8],
    spots: &mut [Atom],
    tree: &mut [u8],
    index: &mut [Entry],
    out: &mut [u8],
) -> Result<Answer, Refusal>
    requires { WorkRoom w t.now marks.old spots.old tree.old index.old out.old }
    ensures { GivesForm (descended nots w (decode t.now)) form_bytes result
        out.new }
{
    marks::mark_traits(t, marks, 0);
    let whole = Spot {
        coeff: 1,
        start: 0,
        end: t.len(),
    };
    let n = record::size(t) as usize;
    let found = Descent::start().collect_terms(whole, t, &marks[..n], nots, w as u32, spots);
    let Some(found) = found else {
        return outcome::refuse(out, Refusal::NotLinear);
    };
    form::write_form(found, t, w, spots, tree, index, out)
}

// The same for a file of at most R records, with room for a tree of T bytes and a table of A atoms. A
// short file pays for short arrays: clearing the long ones would add about as much again.
fn normalize_sized<const R: usize, const T: usize, const A: usize>(
    t: &[u8],
    w: u8,
    nots: bool,
    out: &mut [u8],
) -> Result<Answer, Refusal>
    requires { (tree_refusal w t.now ≡ 0) × (length t.now ≤ R * record_length)
        × (length out.old ≡ form_bytes) × Sizes R T A }
    ensures { GivesForm (descended nots w (decode t.now)) form_bytes result
        out.new }
{
    let mut marks = [0u8; R];
    let mut spots = [Atom::NONE; R];
    let mut tree = [0u8; T];
    let mut index = [Entry::NONE; A];
    normalize_tree(
        t, w, nots, &mut marks, &mut spots, &mut tree, &mut index, out,
    )
}

// The same in arrays by the length of the file. It is called where a copy is in the frame, and has
// the arrays in a frame of its own.
fn normalize_file(t: &[u8], w: u8, nots: bool, out: &mut [u8]) -> Result<Answer, Refusal>
    requires { (tree_refusal w t.now ≡ 0) × (length t.now ≤ expr_bytes)
        × (length out.old ≡ form_bytes) }
    ensures { GivesForm (descended nots w (decode t.now)) form_bytes result
        out.new }
{
    if t.len() <= SHORT_BYTES {
        return normalize_sized::<SHORT_RECORDS, SHORT_TREE, SHORT_ATOMS>(t, w, nots, out);
    }
    normalize_sized::<LONG_RECORDS, LONG_TREE, LONG_ATOMS>(t, w, nots, out)
}

// Puts a copy of the accepted expression t into `folded`, with its variable-free subtrees below a
// bitwise operator as literals, and returns where it ends; it has at most as many records.
fn fold_file(t: &[u8], w: u8, marks: &mut [u8], folded: &mut [u8]) -> usize
    requires { CopyRoom w t.now marks.old folded.old }
    ensures { Copied w t.now folded.new result }
{
    marks::mark_traits(t, marks, 0);
    let n = record::size(t) as usize;
    literals::fold_literals(t, &marks[..n], false, w, folded, 0)
}

// The form of the accepted expression t of at most B bytes by rules 2: that of a copy with its
// literals folded, of which the descent turns the Nots. The marks for the copy stand in the result
// slice, all of which is written afterwards.
fn folded_sized<const B: usize>(t: &[u8], w: u8, out: &mut [u8]) -> Result<Answer, Refusal>
    requires { (tree_refusal w t.now ≡ 0) × (length t.now ≤ B)
        × (length out.old ≡ form_bytes) × (B ≤ expr_bytes) }
    ensures { GivesForm (normalize_tree w (ruled_tree true w (decode t.now)))
        form_bytes result out.new }
{
    let mut folded = [0u8; B];
    let end = fold_file(t, w, out, &mut folded);
    normalize_file(&folded[..end], w, true, out)
}

// Refusals 1 to 6 of the expression t beside a result slice of so many bytes, the first that applies.
fn file_refusal(t: &[u8], length: usize) -> Result<(), Refusal>
    ensures { number_of result ≡ file_refusal t.now length }
{
    let own = expr_refusal::expr_refusal(t);
    if own == Err(Refusal::Length) {
        return own;
    }
    if length != limits::FORM_BYTES {
        return Err(Refusal::ResultLength);
    }
    own
}

// The semilinear form of the expression t, written to out; or a refusal: 1 to 6, 8 or 9.
// Corresponds to `normalize_to_semilinear`.
pub fn normalize_to_semilinear(t: &[u8], out: &mut [u8]) -> Result<Answer, Refusal>
    ensures { GivesForm (normalize_to_semilinear t.now (length out.old))
        (length out.old) result out.new }
{
    if let Err(refusal) = file_refusal(t, out.len()) {
        return outcome::refuse(out, refusal);
    }
    let w = record::width(t);
    if t.len() <= SHORT_BYTES {
        return normalize_sized::<SHORT_RECORDS, SHORT_TREE, SHORT_ATOMS>(t, w, false, out);
    }
    normalize_sized::<LONG_RECORDS, LONG_TREE, LONG_ATOMS>(t, w, false, out)
}

// The same by rules 2.
fn normalize_by_two(t: &[u8], out: &mut [u8]) -> Result<Answer, Refusal>
    ensures { GivesForm (normalize_ruled true t.now (length out.old))
        (length out.old) result out.new }
{
    if let Err(refusal) = file_refusal(t, out.len()) {
        return outcome::refuse(out, refusal);
    }
    let w = record::width(t);
    if t.len() <= SHORT_BYTES {
        return folded_sized::<SHORT_BYTES>(t, w, out);
    }
    folded_sized::<LONG_BYTES>(t, w, out)
}

// The semilinear form of the expression t by the rules that the caller names, 1 or 2, written to
// out; or a refusal: 18 for other rules, then 1 to 6, 8 or 9.
pub fn normalize_by_rules(rules: u64, t: &[u8], out: &mut [u8]) -> Result<Answer, Refusal>
    ensures { GivesForm (normalize_by_rules rules t.now (length out.old))
        (length out.old) result out.new }
{
    if rules == 1 {
        return normalize_to_semilinear(t, out);
    }
    if rules == 2 {
        return normalize_by_two(t, out);
    }
    outcome::refuse(out, Refusal::Rules)
}
