// Xor recovery and mask elimination on a group.
ghost use Rattle.std.specs.Prelude.{◌≡◌, ◌-◌, leb};
ghost use Rattle.record.specs.Decode.{decode};
ghost use Rattle.group.specs.Ready.{StepReady};
ghost use Rattle.structure_laws.specs.RecoverStructure.{recover_xor, eliminate_mask};
ghost use Rattle.structure_laws.specs.RecoverStructure.{count_ones, recover_pair};
ghost use Rattle.structure_laws.specs.RecoverStructure.{looks, recover_at, recover_group};
ghost use Rattle.pairing.specs.Recovering.{Turned, Recovered};
ghost use Rattle.pairing.specs.Recovering.{XorReady, PairReady, EntryReady};
ghost use Rattle.base.specs.Limits.{group_entries};

use bare::constant;
use entries::{Entry, Mark};
use group::{Basis, Group};
use made::Made;
use pairing::{partner, xored};

// c & x and ~c & x with coefficients that add to 0: entry src becomes an Xor, and dst is consumed.
fn recover_xor(
    g: &mut Group,
    src: usize,
    dst: usize,
    b: &[u8],
    w: u8,
    made: &mut Made,
    out: &mut [u8],
)
    requires { XorReady w src dst b.now made.old out.old }
    ensures { Turned w 1 (recover_xor w (decode b.now) src dst)
        g.old made.old out.old g.new made.new out.new }
{
    let width = u32::from(w);
    let e = g.entries[src];
    let f = g.entries[dst];
    g.entries[src] = Entry {
        coeff: f.coeff,
        mask: arith::bitmask(width),
        atom: made.rows,
        mark: Mark::Rewritten,
    };
    g.entries[dst] = Entry {
        mark: Mark::Consumed,
        ..f
    };
    xored::create_xored(made, out, b, e.mask, w);
    constant::add_constant(made, arith::mod_mul(e.coeff, e.mask, width), width);
}

// Entry i takes the difference of the coefficients, and entry j the basis without a mask.
fn eliminate_mask(
    g: &mut Group,
    diff: u64,
    i: usize,
    j: usize,
    b: Basis<'_>,
    w: u8,
    made: &mut Made,
    out: &mut [u8],
)
    requires { PairReady w i j b.hash b.bytes.now made.old out.old }
    ensures { Turned w 1 (eliminate_mask w (decode b.entry.bytes.now) diff i j)
        g.old made.old out.old g.new made.new out.new }
{
    let atom = bare::find_or_create_bare(made, out, b.bytes, b.hash, w);
    let e = g.entries[i];
    let f = g.entries[j];
    g.entries[i] = Entry { coeff: diff, ..e };
    g.entries[j] = Entry {
        mask: arith::bitmask(u32::from(w)),
        atom,
        mark: Mark::Widened,
        ..f
    };
}

// Whether m has at most as many ones as p.
fn fewer_ones(m: u64, p: u64) -> bool
    ensures { result ≡ leb (count_ones m) (count_ones p) }
{
    m.count_ones() <= p.count_ones()
}

// The pair i and j of complement masks.
fn recover_pair(
    g: &mut Group,
    i: usize,
    j: usize,
    b: Basis<'_>,
    w: u8,
    made: &mut Made,
    out: &mut [u8],
)
    requires { PairReady w i j b.hash b.bytes.now made.old out.old }
    ensures { Turned w 1 (recover_pair w (decode b.entry.bytes.now) i j)
        g.old made.old out.old g.new made.new out.new }
{
    let e = g.entries[i];
    let f = g.entries[j];
    let width = u32::from(w);
    if arith::mod_add(e.coeff, f.coeff, width) == 0 {
        if fewer_ones(e.mask, f.mask) {
            recover_xor(g, i, j, b.bytes, w, made, out);
        } else {
            recover_xor(g, j, i, b.bytes, w, made, out);
        }
        return;
    }
    let diff = arith::mod_sub(e.coeff, f.coeff, width);
    if diff != 0 {
        eliminate_mask(g, diff, i, j, b, w, made, out);
    }
}

// Whether an entry with this mark looks for a partner.
fn looks(mark: Mark) -> bool
    ensures { result ≡ looks mark }
{
    !matches!(mark, Mark::Consumed | Mark::Rewritten)
}

// Entry i with the first later one that has the complement mask.
fn recover_entry(g: &mut Group, i: usize, b: Basis<'_>, w: u8, made: &mut Made, out: &mut [u8])
    requires { EntryReady w i b.hash b.bytes.now g.old made.old out.old }
    ensures { Turned w 1 (recover_at w (decode b.entry.bytes.now) i)
        g.old made.old out.old g.new made.new out.new }
{
    let e = g.entries[i];
    if !looks(e.mark) {
        return;
    }
    let wanted = partner::complement(arith::bitmask(u32::from(w)), e.mask);
    if let Some(j) = partner::partner_of(g.used(), i + 1, wanted) {
        recover_pair(g, i, j, b, w, made, out);
    }
}

// Every entry in turn looks for the first later one with the complement mask.
pub fn recover_entries(g: &mut Group, b: Basis<'_>, w: u8, made: &mut Made, out: &mut [u8])
    requires { StepReady w group_entries b.hash b.bytes.now g.old made.old out.old }
    ensures { Recovered w group_entries (recover_group w (decode b.entry.bytes.now))
        g.old made.old out.old g.new made.new out.new }
{
    for i in 0..g.len {
        if made.table.full {
            return;
        }
        recover_entry(g, i, b, w, made, out);
    }
}
