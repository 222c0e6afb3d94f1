// The coefficient of each bit of a group, the bits that carry it, and the new terms for them.
#![tactic(auto)]

ghost use Rattle.std.specs.Prelude.{◌≡◌, ◌<◌, ◌≤◌};
ghost use Rattle.record.specs.Decode.{decode};
ghost use Rattle.made.specs.Made.{Makes};
ghost use Rattle.structure_laws.specs.Carried.{bit_coeff, carry, carry_at, carried_of};
ghost use Rattle.structure_laws.specs.CoalesceTerms.{carried_rows};
ghost use Rattle.carried.specs.Coalescing.{carried_in, CarryReady, CarriedReady, IsCarried};
ghost use Rattle.carried.specs.Coalescing.{PutReady, carried_row, Coalesced};

use entries::Entry;
use group::{keys, settle};
use made::Made;
use views::bases;

// The sum of the coefficients whose masks have the bit p. It is cut only in the end. Each coefficient
// is added before the test, which then chooses between two numbers and needs no jump: the bits of masks
// may be like random ones.
fn bit_coeff(entries: &[Entry], p: u32, w: u32) -> u64
    requires { (p < 64) × (w ≤ 64) }
    ensures { result ≡ bit_coeff w entries.now p }
{
    let mut sum = 0;
    for e in entries {
        let more = std::num::wrapping_add_u64(sum, e.coeff);
        if (e.mask >> p) & 1 == 1 {
            sum = more;
        }
    }
    sum & arith::bitmask(w)
}

// The bit p joined to its coefficient c among the first `count`; returns how many there are.
fn carry(carried: &mut [u64], bits: &mut [u64], count: usize, c: u64, p: u32) -> usize
    requires { CarryReady p count carried.old bits.old }
    ensures { IsCarried (carry c p (carried_in count carried.old bits.old))
        carried.old bits.old carried.new bits.new result }
{
    let bit = 1 << p;
    match keys::place_of(carried, count, c) {
        Ok(k) => {
            bits[k] += bit;
            count
        }
        Err(k) => {
            bases::insert_at(carried, k, count, c);
            bases::insert_at(bits, k, count, bit);
            count + 1
        }
    }
}

// The same for the coefficient of the bit p in a group; 0 carries nothing.
fn carry_at(
    entries: &[Entry],
    w: u32,
    p: u32,
    carried: &mut [u64],
    bits: &mut [u64],
    count: usize,
) -> usize
    requires { (w ≤ 64) × CarryReady p count carried.old bits.old }
    ensures { IsCarried (carry_at w entries.now p
        (carried_in count carried.old bits.old))
        carried.old bits.old carried.new bits.new result }
{
    let c = bit_coeff(entries, p, w);
    if c == 0 {
        return count;
    }
    carry(carried, bits, count, c, p)
}

// Each coefficient of a bit, by rising coefficient, and the bits that carry it: at most w.
pub fn carried_of(entries: &[Entry], w: u32, carried: &mut [u64], bits: &mut [u64]) -> usize
    requires { CarriedReady w carried.old bits.old }
    ensures { IsCarried (carried_of w entries.now)
        carried.old bits.old carried.new bits.new result }
{
    let mut count = 0;
    for p in 0..w {
        count = carry_at(entries, w, p, carried, bits, count);
    }
    count
}

// One new term: a new masked atom, or the basis itself for all bits. A full table stays as it is.
fn put_term(
    c: u64,
    m: u64,
    b: &[u8],
    hash: u64,
    w: u8,
    made: &mut Made,
    coeffs: &mut [u64],
    out: &mut [u8],
)
    requires { Makes w 1 hash b.now made.old out.old }
    ensures { Coalesced w 0 1 (carried_row w (decode b.now) c m)
        made.old out.old coeffs.old
        made.new out.new coeffs.new }
{
    if made.table.full {
        return;
    }
    let width = u32::from(w);
    if m == arith::bitmask(width) {
        let row = bare::find_or_create_bare(made, out, b, hash, w);
        settle::add_word(coeffs, row, c, width);
        return;
    }
    let row = made.rows;
    made::create_masked(made, out, b, hash, m, w);
    settle::add_word(coeffs, row, c, width);
}

// The new terms: the first `count` coefficients with their bits.
pub fn put_carried(
    carried: &[u64],
    bits: &[u64],
    count: usize,
    b: &[u8],
    hash: u64,
    w: u8,
    made: &mut Made,
    coeffs: &mut [u64],
    out: &mut [u8],
)
    requires { PutReady w count hash carried.now bits.now b.now made.old out.old }
    ensures { Coalesced w 0 count (carried_rows w (decode b.now)
        (carried_in count carried.now bits.now))
        made.old out.old coeffs.old
        made.new out.new coeffs.new }
{
    for k in 0..count {
        put_term(carried[k], bits[k], b, hash, w, made, coeffs, out);
    }
}
