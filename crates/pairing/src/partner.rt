// The search for an entry with the complement mask.
ghost use Rattle.std.specs.Prelude.{◌≡◌, false, ◌&&◌, ◌-◌, ◌≤◌, eqb, length};
ghost use Rattle.entries.specs.Found.{found_below};
ghost use Rattle.structure_laws.specs.RecoverStructure.{as_gathered};
ghost use Rattle.pairing.specs.Recovering.{partner_in, NoPartner};

use entries::{Entry, Mark};

// What the mask `full` has beside m; 0 where m is above it.
pub fn complement(full: u64, m: u64) -> u64
    ensures { result ≡ full - m }
{
    full.saturating_sub(m)
}

// Whether the entry is as it was gathered and has the mask m.
fn is_partner(e: &Entry, m: u64) -> bool
    ensures { result ≡ (as_gathered e.now.mark && eqb e.now.mask m) }
{
    e.mark == Mark::Live && e.mask == m
}

// The first entry from `from` on that is as it was gathered and has the mask m.
pub fn partner_of(entries: &[Entry], from: usize, m: u64) -> Option<usize>
    requires { from ≤ length entries.now }
    ensures { result ≡ found_below (length entries.now) (partner_in m entries.now from) }
{
    for j in from..entries.len() {
        if is_partner(&entries[j], m) {
            return Some(j);
        }
    }
    None
}

// Whether an entry has a partner.
pub fn any_partner(entries: &[Entry], full: u64) -> bool
    ensures { result ≡ false → NoPartner full entries.now }
{
    for i in 0..entries.len() {
        let wanted = complement(full, entries[i].mask);
        if partner_of(entries, i + 1, wanted).is_some() {
            return true;
        }
    }
    false
}
