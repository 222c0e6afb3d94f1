// The sums of a place: for each index the coefficients of the terms whose atom has bit 1 there.
ghost use Rattle.judge.specs.Sums.{AllBelow, CoeffAdded, SumsReady, PlaceSummed};
ghost use Rattle.std.specs.Prelude.{◌≤◌};

use semilinear::items::Rows;

// c is added, modulo 2^w, to each sum whose row is set.
fn add_coeff(sums: &mut [u64], rows: u64, c: u64, w: u32)
    requires { (w ≤ 64) × AllBelow w sums.old }
    ensures { CoeffAdded w rows c sums.old sums.new }
{
    let mut left = rows;
    for i in 0..sums.len() {
        if left % 2 == 1 {
            sums[i] = arith::mod_add(sums[i], c, w);
        }
        left /= 2;
    }
}

// The sums of a place of the atoms and terms f, whose terms begin at `terms`.
pub fn place_sums(f: &[u8], terms: usize, vars: &[u64], place: u32, w: u32, sums: &mut [u64])
    requires { SumsReady w f.now terms sums.old }
    ensures { PlaceSummed w place vars.now f.now sums.old
        sums.new }
{
    sums.fill(0);
    for row in Rows::of(f, terms) {
        if let Some(coeff) = row.coeff {
            let rows = truth::rows_at(row.atom.tree, vars, place, w);
            add_coeff(sums, rows, coeff, w);
        }
    }
}
