// The end of a pass on a group: what its entries add to the coefficients of the rows.
ghost use Rattle.std.specs.Prelude.{◌≡◌};
ghost use Rattle.group.specs.Gathered.{add_word, settle_words};

use entries::Entry;

// c added to word a, where there is one.
pub fn add_word(coeffs: &mut [u64], a: u64, c: u64, w: u32)
    ensures { coeffs.new ≡ add_word w c a coeffs.old }
{
    let j = a as usize;
    if j < coeffs.len() {
        coeffs[j] = arith::mod_add(coeffs[j], c, w);
    }
}

// Every entry that is not consumed is added to the coefficient of its row.
pub fn settle(entries: &[Entry], coeffs: &mut [u64], w: u32)
    ensures { coeffs.new ≡ settle_words w entries.now coeffs.old }
{
    for e in entries {
        if e.is_live() {
            add_word(coeffs, e.atom, e.coeff, w);
        }
    }
}
