// Truth tables on words: bit i of a word is a tree's bit at one place under assignment number i, in
// which the j-th variable of a list has bit j of i. One walk gives all 64 rows.
#![tactic(auto)]

pub mod key;

ghost use Rattle.std.specs.Prelude.{◌≡◌, true, ℕ, ◌-◌, ◌^◌, ◌/◌, ◌%◌, ◌<◌, ◌≤◌, ◌==◌, length, position};
ghost use Rattle.arith.specs.Bit.{bit_at};
ghost use Rattle.base.specs.Choice.{when};
ghost use Rattle.record.specs.Span.{sized};
ghost use Rattle.record.specs.Tree.Tree.{Variable};
ghost use Rattle.record.specs.Decode.{leaf, decode};
ghost use Rattle.truth.specs.Truth.{place_of, bit_binary, table_f};
ghost use Rattle.base.specs.Limits.{record_length};

use base::limits;
use record::kinds::Kind;

// Bit i is bit j of i.
fn column(j: usize) -> u64
    ensures { (i : ℕ) → i < 64 → bit_at result i ≡ bit_at i j }
{
    match j {
        0 => 0xAAAA_AAAA_AAAA_AAAA,
        1 => 0xCCCC_CCCC_CCCC_CCCC,
        2 => 0xF0F0_F0F0_F0F0_F0F0,
        3 => 0xFF00_FF00_FF00_FF00,
        4 => 0xFFFF_0000_FFFF_0000,
        5 => 0xFFFF_FFFF_0000_0000,
        _ => 0,
    }
}

// The place of the first v in the list.
fn place_in(v: u64, vars: &[u64]) -> Option<usize>
    ensures { result ≡ position (λ x. x == v) vars.now }
{
    vars.iter().position(|x| *x == v)
}

// The place of the first v in the list, its length where there is none: the count of the words
// before v, which callers ask for.
pub fn place_of(v: u64, vars: &[u64]) -> usize
    ensures { result ≡ place_of v vars.now }
{
    place_in(v, vars).unwrap_or(vars.len())
}

// The rows of the variable v, the same at every width and place.
fn variable_rows(vars: &[u64], v: u64) -> u64
    ensures { (w p : ℕ) → result ≡ table_f 64 w p vars.now (Variable v) }
{
    match place_in(v, vars) {
        Some(j) => column(j),
        None => 0,
    }
}

// The rows of a root without children, the same at every width.
fn leaf_rows(t: &[u8], vars: &[u64], place: u32) -> u64
    requires { record_length ≤ length t.now }
    ensures { (w : ℕ) → result ≡ table_f 64 w place vars.now
        (leaf t.now) }
{
    if record::kind(t) == Kind::Constant as u8 {
        if arith::bit(record::literal(t), place) == 0 {
            return 0;
        }
        return u64::MAX;
    }
    variable_rows(vars, record::var_index(t))
}

// And, Or and Xor of rows.
fn join_rows(k: u8, x: u64, y: u64) -> u64
    ensures { (i : ℕ) → bit_at result i ≡ bit_binary k (bit_at x i) (bit_at y i) }
{
    if k == Kind::And as u8 {
        x & y
    } else if k == Kind::Or as u8 {
        x | y
    } else {
        x ^ y
    }
}

// The complement of rows, or the rows.
fn complement(flip: bool, x: u64) -> u64
    ensures { result ≡ when flip (λ _. 2 ^ 64 - 1 - x) (λ _. x) }
{
    if flip {
        return !x;
    }
    x
}

// The rows of the tree of t, over the variables of a list, at the place and the width that are the
// low and the high half of `at`: a recursion of 1,536 levels carries one number less. A loop passes
// Not and Shr: `flip` says whether the rows below are complemented. A shift reads a higher place,
// and is 0 from the width on. A leaf under a root with two children is read without a call of its
// own. Corresponds to `eval_atom_at_bit`.
fn rows_in(t: &[u8], vars: &[u64], at: u64) -> u64
    requires { sized t.now ≡ true }
    ensures { result ≡ table_f 64 (at / 4294967296) (at % 4294967296) vars.now
        (decode t.now) }
{
    let mut s = t;
    let mut here = at;
    let mut flip = false;
    loop {
        let children = record::root_arity(s);
        let place = (here % 0x1_0000_0000) as u32;
        if children == 0 {
            return complement(flip, leaf_rows(s, vars, place));
        }
        let k = record::kind(s);
        if children != 1 {
            let l = record::left(s);
            let r = record::right(s);
            let y = if record::root_arity(r) == 0 {
                leaf_rows(r, vars, place)
            } else {
                rows_in(r, vars, here)
            };
            let x = if record::root_arity(l) == 0 {
                leaf_rows(l, vars, place)
            } else {
                rows_in(l, vars, here)
            };
            return complement(flip, join_rows(k, x, y));
        }
        if k == Kind::Not as u8 {
            flip = !flip;
        } else {
            let a = record::amount(s);
            let source = here % 0x1_0000_0000 + a;
            if here / 0x1_0000_0000 <= source {
                return complement(flip, 0);
            }
            here += a;
        }
        let end = s.len() - limits::RECORD_LENGTH;
        s = &s[..end];
    }
}

// The rows of the tree of t at a place of w, over the variables of a list.
pub fn rows_at(t: &[u8], vars: &[u64], place: u32, w: u32) -> u64
    requires { sized t.now ≡ true }
    ensures { result ≡ table_f 64 w place vars.now (decode t.now) }
{
    if record::root_arity(t) == 0 {
        return leaf_rows(t, vars, place);
    }
    rows_in(t, vars, place as u64 + w as u64 * 0x1_0000_0000)
}
