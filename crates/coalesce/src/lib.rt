// Coalescing the terms of one variable by the coefficient of each bit.
#![tactic(auto)]

ghost use Rattle.std.specs.Prelude.{◌≡◌, ◌≤◌, true, false, [], ◌*◌, length};
ghost use Rattle.base.specs.Put.{padded};
ghost use Rattle.record.specs.Decode.{decode};
ghost use Rattle.semilinear.specs.Items.{atom_count, after_atoms};
ghost use Rattle.semilinear.specs.Valid.{is_semilinear};
ghost use Rattle.semilinear.specs.DecodeForm.{read_form, read_rows};
ghost use Rattle.semilinear.specs.Answers.{GivesForm};
ghost use Rattle.semilinear.specs.PassOutcome.{limit_outcome};
ghost use Rattle.views.specs.Grouping.{variable_basis, bases_of};
ghost use Rattle.views.specs.Views.{view_at, basis_bytes};
ghost use Rattle.group.specs.Gathered.{gathered};
ghost use Rattle.group.specs.Ready.{FormReady, AllReady, AtFirst, GroupReady};
ghost use Rattle.structure_laws.specs.CoalesceTerms.{coalesce_group, coalesce_all};
ghost use Rattle.structure_laws.specs.CoalesceTerms.{coalesce_form, coalesce_terms};
ghost use Rattle.carried.specs.Coalescing.{Coalesced, RowsCoalesced};
ghost use Rattle.base.specs.Limits.{atom_limit, form_bytes, group_entries};

use atom_table::{pass, read};
use base::limits;
use base::refusal::Refusal;
use group::{Group, settle};
use made::Made;
use semilinear::outcome::Answer;
use views::{View, bases};

// One group: the rows, of n, that have the basis b with this hash are gathered, and rewritten where
// that leaves strictly fewer terms. Where the table is full, what is left to do does not matter.
fn coalesce_group(
    hash: u64,
    b: &[u8],
    n: usize,
    views: &[Option<View>],
    f: &[u8],
    w: u8,
    made: &mut Made,
    coeffs: &mut [u64],
    out: &mut [u8],
)
    requires { GroupReady w 64 hash b.now f.now views.now n made.old out.old }
    ensures { Coalesced w n 64 (coalesce_group w (decode b.now)
        (gathered f.now views.now hash b.now n))
        made.old out.old coeffs.old
        made.new out.new coeffs.new }
{
    if made.table.full {
        return;
    }
    let mut g = Group::empty();
    g.gather_rows(n, hash, b, views, f);
    if g.len < 2 {
        settle::settle(g.used(), coeffs, u32::from(w));
        return;
    }
    let mut carried = [0u64; 64];
    let mut bits = [0u64; 64];
    let count = carried::carried_of(g.used(), u32::from(w), &mut carried, &mut bits);
    if g.len <= count {
        settle::settle(g.used(), coeffs, u32::from(w));
        return;
    }
    carried::put_carried(&carried, &bits, count, b, hash, w, made, coeffs, out);
}

// The group of the basis of row `first`; where that row is alone, none is gathered.
fn coalesce_at(
    first: usize,
    n: usize,
    views: &[Option<View>],
    f: &[u8],
    w: u8,
    made: &mut Made,
    coeffs: &mut [u64],
    out: &mut [u8],
)
    requires { AtFirst w 64 f.now views.now first n made.old out.old }
    ensures { Coalesced w n 64
        (coalesce_group w (decode (basis_bytes f.now (view_at views.now first)))
        (gathered f.now views.now (view_at views.now first).hash
        (basis_bytes f.now (view_at views.now first)) n))
        made.old out.old coeffs.old
        made.new out.new coeffs.new }
{
    let v = views[first].unwrap();
    let b = &f[v.start..v.end];
    if lone::first_is_lone(first, n, v.hash, b, views, f) {
        settle::add_word(coeffs, first as u64, v.coeff, w as u32);
        return;
    }
    coalesce_group(v.hash, b, n, views, f, w, made, coeffs, out);
}

// The groups in turn; the first `count` of `bases` name their bases.
// A twin of refine_all and recover_all (term_refiner says why it is one).
fn coalesce_all(
    count: usize,
    bases: &[usize],
    n: usize,
    views: &[Option<View>],
    f: &[u8],
    w: u8,
    made: &mut Made,
    coeffs: &mut [u64],
    out: &mut [u8],
)
    requires { AllReady variable_basis w f.now views.now bases.now n count made.old out.old }
    ensures { Coalesced w n (64 * group_entries)
        (coalesce_all w (read_rows 0 f.now (after_atoms f.now))
        (bases_of variable_basis w (read_rows 0 f.now (after_atoms f.now)) []))
        made.old out.old coeffs.old
        made.new out.new coeffs.new }
{
    for first in &bases[..count] {
        coalesce_at(*first, n, views, f, w, made, coeffs, out);
    }
}

// The rows of f, of at most N atoms, whose terms begin at `terms`.
fn coalesce_sized<const N: usize>(
    f: &[u8],
    terms: usize,
    w: u8,
    made: &mut Made,
    coeffs: &mut [u64],
    out: &mut [u8],
)
    requires { (N ≤ atom_limit) × FormReady w N f.now terms coeffs.old made.old out.old }
    ensures { RowsCoalesced w (read_rows 0 f.now (after_atoms f.now))
        made.old out.old made.new out.new coeffs.new }
{
    let mut views = [None; N];
    let mut bases = [0; N];
    let n = views::read_views(f, terms, w, true, &mut views, coeffs);
    let count = bases::find_bases(&views, n, f, &mut bases);
    coalesce_all(count, &bases, n, &views, f, w, made, coeffs, out);
}

// The same for `count` atoms. Most forms are short, and clearing long arrays costs.
fn coalesce_table(
    f: &[u8],
    terms: usize,
    count: u64,
    w: u8,
    made: &mut Made,
    coeffs: &mut [u64],
    out: &mut [u8],
)
    requires { (atom_count f.now ≡ count)
        × FormReady w atom_limit f.now terms coeffs.old made.old out.old }
    ensures { RowsCoalesced w (read_rows 0 f.now (after_atoms f.now))
        made.old out.old made.new out.new coeffs.new }
{
    if count <= limits::SHORT_ATOMS_U64 {
        coalesce_sized::<{ limits::SHORT_ATOMS }>(f, terms, w, made, coeffs, out);
        return;
    }
    coalesce_sized::<{ limits::ATOM_LIMIT }>(f, terms, w, made, coeffs, out);
}

// Coalesces a form into a slice of 57,360 bytes, which is all zeros.
fn coalesce_form(s: &[u8], out: &mut [u8]) -> Result<Answer, Refusal>
    requires { (is_semilinear s.now ≡ true) × (out.old ≡ padded form_bytes []) }
    ensures { GivesForm (limit_outcome (coalesce_form (read_form s.now)) false) form_bytes result out.new }
{
    let w = record::width(s);
    let constant = record::literal(s);
    let tab = pass::copy_atoms(s, out);
    let terms = tab.at;
    let count = tab.count;
    let mut made = Made {
        table: tab,
        rows: count,
        constant,
    };
    let mut coeffs = [0u64; limits::ATOM_LIMIT];
    coalesce_table(
        record::body(s),
        terms,
        count,
        w,
        &mut made,
        &mut coeffs,
        out,
    );
    pass::finish(made.table, &coeffs, 1, constant, w, false, out)
}

// The form s with its terms coalesced, written to out; or a refusal: 1, 2, 9 or 10.
// Each pass has its own such function: two lines, and a clause of its own.
pub fn coalesce_terms(s: &[u8], out: &mut [u8]) -> Result<Answer, Refusal>
    ensures { GivesForm (coalesce_terms s.now (length out.old))
        (length out.old) result out.new }
{
    read::open_bytes(s, out)?;
    coalesce_form(s, out)
}
