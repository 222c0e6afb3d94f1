// The form of what was collected: the atom table, its terms, and the sum record.
ghost use Rattle.std.specs.Prelude.{◌≡◌, length};
ghost use Rattle.semilinear.specs.Answers.{GivesForm};
ghost use Rattle.normalizer_laws.specs.Collect.{linear};
ghost use Rattle.descent.specs.Spots.{spots_in};
ghost use Rattle.register.specs.Index.{SpotsRoom};
ghost use Rattle.normalizer_laws.specs.Normalize.{collected_outcome};
ghost use Rattle.base.specs.Limits.{form_bytes};

use atom_table::pass;
use base::limits;
use base::refusal::Refusal;
use descent::collect::{Atom, Descent};
use register::index::Entry;
use semilinear::outcome::Answer;

// The form of a descent that was linear, written to a slice of 57,360 bytes; or 9. The descent's
// atoms stand in `spots`; `tree` and `index` are room to work in.
pub fn write_form(
    found: Descent,
    file: &[u8],
    w: u8,
    spots: &[Atom],
    tree: &mut [u8],
    index: &mut [Entry],
    out: &mut [u8],
) -> Result<Answer, Refusal>
    requires { SpotsRoom w found.count spots.now file.now tree.old index.old
        × (length out.old ≡ form_bytes) }
    ensures { GivesForm (collected_outcome w (linear found.constant
        (spots_in file.now spots.now found.count)))
        form_bytes result out.new }
{
    out.fill(0);
    let table = register::register_all(found.count, spots, file, w, tree, index, out);
    // The end of a pass takes coefficients that stand one behind the other.
    let mut coeffs = [0u64; limits::ATOM_LIMIT];
    register::put_coeffs(index, &mut coeffs);
    pass::finish(table, &coeffs, 1, found.constant, w, false, out)
}
