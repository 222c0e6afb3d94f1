// The judge of two sides: its verdict, definitions and laws, without functions.
#![tactic(auto)]

// The refusal, 0 where the two are judged; 1 where they are equal; and where they are not, the
// place and the index of the first assignment that tells them apart.
#[derive(Drop)]
pub struct Verdict {
    pub refusal: u64,
    pub equal: u64,
    pub place: u64,
    pub index: u64,
}
