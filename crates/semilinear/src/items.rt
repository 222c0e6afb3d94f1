// Readers of a semilinear form's bytes from the front: an atom's head and tree, and a term.
ghost use Rattle.std.specs.Prelude.{◌≡◌, true, ℕ, ◌+◌, ◌*◌, ◌^◌, ◌<◌, ◌≤◌, List, length, drop};
ghost use Rattle.semilinear.specs.Items.{front_kind, provenance, front_number, front_width};
ghost use Rattle.semilinear.specs.Items.{front_spare, front_word, atom_length, is_atom, tree_span};
ghost use Rattle.semilinear.specs.Items.{is_term};
ghost use Rattle.semilinear.specs.DecodeForm.{has_term};
ghost use Rattle.semilinear.specs.Atoms.{NextAtom, FrontAtom, NextTerm, RowsLeft, NextRow};
ghost use Rattle.std.specs.Iterator.{at_most};
ghost use Rattle.base.specs.Limits.{record_length};

use base::limits;
use record::kinds::FormKind;
use std::marker::Model;

// The bytes from the place `at` on.
pub fn rest_from(f: &[u8], at: usize) -> &[u8]
    requires { at ≤ length f.now }
    ensures { result.now ≡ drop at f.now }
{
    &f[at..]
}

// Byte 1 of the record at the front: 0 to 4 in a head, once the provenance of its atom, and 0 in a
// term.
pub fn provenance(r: &[u8]) -> u8
    requires { record_length ≤ length r.now }
    ensures { result ≡ provenance r.now }
{
    r[1]
}

// Bytes 2 and 3 of the record at the front.
pub fn front_number(r: &[u8]) -> u64
    requires { record_length ≤ length r.now }
    ensures { (result ≡ front_number r.now) × (result < 2 ^ 16) }
{
    record::read_u16(r, 2)
}

// The width of the record at the front.
pub fn front_width(r: &[u8]) -> u8
    requires { record_length ≤ length r.now }
    ensures { result ≡ front_width r.now }
{
    r[4]
}

// The sum of bytes 5 to 7 of the record at the front.
pub fn front_spare(r: &[u8]) -> u64
    requires { record_length ≤ length r.now }
    ensures { result ≡ front_spare r.now }
{
    u64::from(r[5]) + u64::from(r[6]) + u64::from(r[7])
}

// Bytes 8 to 15 of the record at the front.
pub fn front_word(r: &[u8]) -> u64
    requires { record_length ≤ length r.now }
    ensures { result ≡ front_word r.now }
{
    record::read_u64(r, 8)
}

// Whether an atom's head stands at the front, with room for its tree.
#[tactic(auto, unfolding(crate::specs::Items::is_atom, crate::specs::Items::front_kind, crate::specs::Items::atom_length))]
pub fn is_atom(r: &[u8]) -> bool
    ensures { result ≡ is_atom r.now }
{
    r.len() >= limits::RECORD_LENGTH
        && r[0] == FormKind::Head as u8
        && limits::RECORD_LENGTH + limits::RECORD_LENGTH * front_number(r) as usize <= r.len()
}

// The bytes of the atom at the front, head and tree.
pub fn atom_length(r: &[u8]) -> usize
    requires { is_atom r.now ≡ true }
    ensures { (result ≡ atom_length r.now) × (record_length ≤ result) × (result ≤ length r.now) }
{
    let size = front_number(r) as usize;
    limits::RECORD_LENGTH + limits::RECORD_LENGTH * size
}

// The tree of the atom at the front.
pub fn tree_span(r: &[u8]) -> &[u8]
    requires { is_atom r.now ≡ true }
    ensures { result.now ≡ tree_span r.now }
{
    let end = atom_length(r);
    let start = limits::RECORD_LENGTH;
    &r[start..end]
}

// Whether a term stands at the front.
#[tactic(auto, unfolding(crate::specs::Items::is_term, crate::specs::Items::front_kind))]
pub fn is_term(q: &[u8]) -> bool
    ensures { result ≡ is_term q.now }
{
    q.len() >= limits::RECORD_LENGTH && q[0] == FormKind::Term as u8
}

// Whether the term of atom i stands at the front.
#[tactic(auto, using(crate::proofs::ItemsLaws::term_big), unfolding(crate::specs::DecodeForm::has_term))]
pub fn has_term(i: u64, q: &[u8]) -> bool
    ensures { result ≡ has_term i q.now }
{
    is_term(q) && front_number(q) == i
}

// An atom: the fields of its head, and its tree.
#[derive(Clone, Copy)]
pub struct Atom<'a> {
    pub provenance: u8,
    pub size: u64,
    pub width: u8,
    pub spare: u64,
    pub hash: u64,
    pub tree: &'a [u8],
}

impl<'a> Atom<'a> {
    // The bytes of the atom, head and tree.
    pub fn len(&self) -> usize
        ensures { result ≡ record_length + length self.now.tree.now }
    {
        limits::RECORD_LENGTH + self.tree.len()
    }
}

// The atoms at the front of some bytes, one after the other.
#[derive(Drop)]
pub struct Atoms<'a> {
    rest: &'a [u8],
}

impl<'a> Model for Atoms<'a> {
    ghost Value = { List ℕ };

    ghost view = { λ s. s.rest.now };
}

impl<'a> Atoms<'a> {
    pub fn of(f: &'a [u8]) -> Self
        ensures { result ≡ f.now }
    {
        Atoms { rest: f }
    }
}

impl<'a> Iterator for Atoms<'a> {
    type Item = Atom<'a>;

    ghost next_gives = { NextAtom };

    ghost remaining = { λ r. at_most (length r) };

    #[tactic(auto, unfolding(crate::specs::Items::after_atom))]
    fn next(&mut self) -> Option<Atom<'a>> {
        let r = self.rest;
        if !is_atom(r) {
            return None;
        }
        self.rest = rest_from(r, atom_length(r));
        Some(Atom {
            provenance: provenance(r),
            size: front_number(r),
            width: front_width(r),
            spare: front_spare(r),
            hash: front_word(r),
            tree: tree_span(r),
        })
    }
}

// A term: the fields of its record.
#[derive(Drop)]
pub struct Term {
    pub byte1: u8,
    pub number: u64,
    pub width: u8,
    pub spare: u64,
    pub coeff: u64,
}

// The terms at the front of some bytes, one after the other.
#[derive(Drop)]
pub struct Terms<'a> {
    rest: &'a [u8],
}

impl<'a> Model for Terms<'a> {
    ghost Value = { List ℕ };

    ghost view = { λ s. s.rest.now };
}

impl<'a> Terms<'a> {
    pub fn of(q: &'a [u8]) -> Self
        ensures { result ≡ q.now }
    {
        Terms { rest: q }
    }
}

impl<'a> Iterator for Terms<'a> {
    type Item = Term;

    ghost next_gives = { NextTerm };

    ghost remaining = { λ q. at_most (length q) };

    #[tactic(auto, using(crate::proofs::ItemsLaws::term_big))]
    fn next(&mut self) -> Option<Term> {
        let q = self.rest;
        if !is_term(q) {
            return None;
        }
        self.rest = rest_from(q, limits::RECORD_LENGTH);
        Some(Term {
            byte1: provenance(q),
            number: front_number(q),
            width: front_width(q),
            spare: front_spare(q),
            coeff: front_word(q),
        })
    }
}

// A row: an atom, its number, and the coefficient of its term, if it has one.
#[derive(Drop)]
pub struct FormRow<'a> {
    pub number: u64,
    pub atom: Atom<'a>,
    pub coeff: Option<u64>,
}

// The rows of a form: its atoms and its terms, read side by side.
#[derive(Drop)]
pub struct Rows<'a> {
    number: u64,
    atoms: &'a [u8],
    terms: &'a [u8],
}

impl<'a> Model for Rows<'a> {
    ghost Value = { RowsLeft };

    ghost view = { λ s. record { number = s.number; atoms = s.atoms.now; terms = s.terms.now } };

    ghost invariant = { λ s. s.number + length s.atoms.now < 2 ^ 63 };
}

impl<'a> Rows<'a> {
    // The rows of the atoms at the front of f, whose terms begin at `terms`.
    pub fn of(f: &'a [u8], terms: usize) -> Self
        requires { terms ≤ length f.now }
        ensures { result ≡ record { number = 0; atoms = f.now; terms = drop terms f.now } }
    {
        Rows {
            number: 0,
            atoms: f,
            terms: rest_from(f, terms),
        }
    }
}

impl<'a> Iterator for Rows<'a> {
    type Item = FormRow<'a>;

    ghost next_gives = { NextRow };

    ghost remaining = { λ s. at_most (length s.atoms) };

    #[tactic(auto, using(crate::proofs::ItemsLaws::term_big, crate::proofs::ItemsLaws::has_term_is))]
    fn next(&mut self) -> Option<FormRow<'a>> {
        let mut atoms = Atoms::of(self.atoms);
        let atom = atoms.next()?;
        let number = self.number;
        let mut coeff = None;
        if has_term(number, self.terms) {
            coeff = Some(front_word(self.terms));
            self.terms = rest_from(self.terms, limits::RECORD_LENGTH);
        }
        self.atoms = atoms.rest;
        self.number = number + 1;
        Some(FormRow {
            number,
            atom,
            coeff,
        })
    }
}
