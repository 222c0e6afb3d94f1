// Refining the terms of a semilinear form.
#![tactic(auto)]

ghost use Rattle.std.specs.Prelude.{◌≡◌, ◌≤◌, true, false, [], length};
ghost use Rattle.base.specs.Put.{padded};
ghost use Rattle.record.specs.Decode.{decode};
ghost use Rattle.semilinear.specs.Items.{atom_count, after_atoms};
ghost use Rattle.semilinear.specs.Valid.{is_semilinear};
ghost use Rattle.semilinear.specs.DecodeForm.{read_form, read_rows};
ghost use Rattle.semilinear.specs.Answers.{GivesForm};
ghost use Rattle.semilinear.specs.PassOutcome.{limit_outcome};
ghost use Rattle.views.specs.Grouping.{any_basis, bases_of};
ghost use Rattle.views.specs.Views.{view_at, basis_bytes};
ghost use Rattle.group.specs.Gathered.{gathered};
ghost use Rattle.group.specs.Ready.{FormReady, AllReady, AtFirst};
ghost use Rattle.refiner_laws.specs.RefineTerms.{refine_form, refine_terms};
ghost use Rattle.refiner_laws.specs.Refining.{GroupRefined, AllRefined, RowsRefined};
ghost use Rattle.base.specs.Limits.{atom_limit, form_bytes};

use atom_table::{pass, read};
use base::limits;
use base::refusal::Refusal;
use group::settle;
use made::Made;
use semilinear::outcome::Answer;
use views::{View, bases};

// The group of the basis of row `first`; where that row is alone and stays as it is, none is gathered.
fn refine_at(
    first: usize,
    n: usize,
    views: &[Option<View>],
    f: &[u8],
    w: u8,
    made: &mut Made,
    coeffs: &mut [u64],
    out: &mut [u8],
)
    requires { AtFirst w 262144 f.now views.now first n made.old out.old }
    ensures { GroupRefined w 262144
        (decode (basis_bytes f.now (view_at views.now first)))
        (gathered f.now views.now (view_at views.now first).hash
        (basis_bytes f.now (view_at views.now first)) n)
        made.old out.old coeffs.old
        made.new out.new coeffs.new }
{
    let v = views[first].unwrap();
    let b = &f[v.start..v.end];
    if lone::first_stays_alone(first, n, v.hash, b, views, f, w as u32) {
        settle::add_word(coeffs, first as u64, v.coeff, w as u32);
        return;
    }
    refine_group::refine_group(v.hash, b, n, views, f, w, made, coeffs, out);
}

// The groups in turn; the first `count` of `bases` name their bases.
// A twin of coalesce_all and recover_all: a trait for the three would have to state, as laws of ten
// arguments each, what this pass says of a turn and of the way through the groups, which is longer.
fn refine_all(
    count: usize,
    bases: &[usize],
    n: usize,
    views: &[Option<View>],
    f: &[u8],
    w: u8,
    made: &mut Made,
    coeffs: &mut [u64],
    out: &mut [u8],
)
    requires { AllReady any_basis w f.now views.now bases.now n count made.old out.old }
    ensures { AllRefined w (read_rows 0 f.now (after_atoms f.now))
        (bases_of any_basis w (read_rows 0 f.now (after_atoms f.now)) [])
        made.old out.old coeffs.old
        made.new out.new coeffs.new }
{
    for first in &bases[..count] {
        refine_at(*first, n, views, f, w, made, coeffs, out);
    }
}

// The rows of f, of at most N atoms, whose terms begin at `terms`.
fn refine_sized<const N: usize>(
    f: &[u8],
    terms: usize,
    w: u8,
    made: &mut Made,
    coeffs: &mut [u64],
    out: &mut [u8],
)
    requires { (N ≤ atom_limit) × FormReady w N f.now terms coeffs.old made.old out.old }
    ensures { RowsRefined w (read_rows 0 f.now (after_atoms f.now))
        made.old out.old made.new out.new coeffs.new }
{
    let mut views = [None; N];
    let mut bases = [0; N];
    let n = views::read_views(f, terms, w, false, &mut views, coeffs);
    let count = bases::find_bases(&views, n, f, &mut bases);
    refine_all(count, &bases, n, &views, f, w, made, coeffs, out);
}

// The same for `count` atoms. Most forms are short, and clearing long arrays costs.
fn refine_table(
    f: &[u8],
    terms: usize,
    count: u64,
    w: u8,
    made: &mut Made,
    coeffs: &mut [u64],
    out: &mut [u8],
)
    requires { (atom_count f.now ≡ count)
        × FormReady w atom_limit f.now terms coeffs.old made.old out.old }
    ensures { RowsRefined w (read_rows 0 f.now (after_atoms f.now))
        made.old out.old made.new out.new coeffs.new }
{
    if count <= limits::SHORT_ATOMS_U64 {
        refine_sized::<{ limits::SHORT_ATOMS }>(f, terms, w, made, coeffs, out);
        return;
    }
    refine_sized::<{ limits::ATOM_LIMIT }>(f, terms, w, made, coeffs, out);
}

// Refines a form into a slice of 57,360 bytes, which is all zeros.
fn refine_form(s: &[u8], out: &mut [u8]) -> Result<Answer, Refusal>
    requires { (is_semilinear s.now ≡ true) × (out.old ≡ padded form_bytes []) }
    ensures { GivesForm (limit_outcome (refine_form (read_form s.now)) false) form_bytes result out.new }
{
    let w = record::width(s);
    let constant = record::literal(s);
    let tab = pass::copy_atoms(s, out);
    let terms = tab.at;
    let count = tab.count;
    let mut made = Made {
        table: tab,
        rows: count,
        constant,
    };
    let mut coeffs = [0u64; limits::ATOM_LIMIT];
    refine_table(
        record::body(s),
        terms,
        count,
        w,
        &mut made,
        &mut coeffs,
        out,
    );
    pass::finish(made.table, &coeffs, 1, constant, w, false, out)
}

// The form s with its terms refined, written to out; or a refusal: 1, 2, 9 or 10.
// Each pass has its own such function: two lines, and a clause of its own.
pub fn refine_terms(s: &[u8], out: &mut [u8]) -> Result<Answer, Refusal>
    ensures { GivesForm (refine_terms s.now (length out.old))
        (length out.old) result out.new }
{
    read::open_bytes(s, out)?;
    refine_form(s, out)
}
