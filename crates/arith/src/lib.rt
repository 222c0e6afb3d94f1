// Arithmetic modulo 2^w on 64-bit words (arith.rs), and the bits of a factor that count beside a
// coefficient (term_refiner.rs, lines 22 to 60). Every width w is accepted, and one above 64 keeps
// 64 bits. Left out are the functions that only casts need: sign_bit_mask, zext, sext and trunc.
// Claims name these functions with their arguments, which stay as they are.
#![tactic(auto)]

ghost use Rattle.std.specs.Prelude.{◌≡◌};
ghost use Rattle.arith.specs.Bit.{bit_at};
ghost use Rattle.arith.specs.Width.{bitmask, is_valid_bitwidth, wrapping_mul};
ghost use Rattle.arith.specs.Width.{mod_add, mod_sub, mod_mul, mod_neg, mod_not, mod_shr};
ghost use Rattle.arith.specs.Effective.{effective_mask, reduce_mask};
ghost use Rattle.arith.specs.Effective.{can_change_coefficient_to, can_change_mask_to};

// The bits that a width keeps, all set. Corresponds to arith.rs 9-17.
#[tactic(auto, using(crate::proofs::WordLaws::bitmask_wide, crate::proofs::WordLaws::bitmask_narrow, crate::proofs::WordLaws::one_shl))]
pub fn bitmask(bitwidth: u32) -> u64
    ensures { result ≡ bitmask bitwidth }
{
    if bitwidth >= 64 {
        return u64::MAX;
    }
    (1 << bitwidth) - 1
}

// Whether a width is one of 1 to 64. Corresponds to arith.rs 22-24.
#[tactic(auto, unfolding(crate::specs::Width::is_valid_bitwidth))]
pub fn is_valid_bitwidth(bitwidth: u32) -> bool
    ensures { result ≡ is_valid_bitwidth bitwidth }
{
    (1..=64).contains(&bitwidth)
}

// a * b modulo 2^64. Added; it stays beside std's method since its contract is a claim of
// docs/CLAIMS.md.
#[tactic(auto, unfolding(crate::specs::Width::wrapping_mul))]
pub fn wrapping_mul(a: u64, b: u64) -> u64
    ensures { result ≡ wrapping_mul a b }
{
    a.wrapping_mul(b)
}

// a + b modulo 2^w. Corresponds to arith.rs 42-44.
#[tactic(auto, using(crate::proofs::WordLaws::and_mod_add))]
pub fn mod_add(a: u64, b: u64, bitwidth: u32) -> u64
    ensures { result ≡ mod_add a b bitwidth }
{
    a.wrapping_add(b) & bitmask(bitwidth)
}

// a - b modulo 2^w. Corresponds to arith.rs 48-50.
#[tactic(auto, using(crate::proofs::WordLaws::and_mod_sub))]
pub fn mod_sub(a: u64, b: u64, bitwidth: u32) -> u64
    ensures { result ≡ mod_sub a b bitwidth }
{
    a.wrapping_sub(b) & bitmask(bitwidth)
}

// a * b modulo 2^w. Corresponds to arith.rs 54-56.
#[tactic(auto, using(crate::proofs::WordLaws::and_mod_mul))]
pub fn mod_mul(a: u64, b: u64, bitwidth: u32) -> u64
    ensures { result ≡ mod_mul a b bitwidth }
{
    wrapping_mul(a, b) & bitmask(bitwidth)
}

// -a modulo 2^w. Corresponds to arith.rs 60-62.
#[tactic(auto, using(crate::proofs::WidthLaws::mod_sub_zero))]
pub fn mod_neg(a: u64, bitwidth: u32) -> u64
    ensures { result ≡ mod_neg a bitwidth }
{
    mod_sub(0, a, bitwidth)
}

// The low w bits of a, each turned. Corresponds to arith.rs 66-68.
#[tactic(auto, using(crate::proofs::WordLaws::and_mod_not))]
pub fn mod_not(a: u64, bitwidth: u32) -> u64
    ensures { result ≡ mod_not a bitwidth }
{
    !a & bitmask(bitwidth)
}

// a shifted down by k, and then cut to w bits. Corresponds to arith.rs 72-77.
#[tactic(auto, using(crate::proofs::WordLaws::and_mod_shr, crate::proofs::WordLaws::mod_shr_past))]
pub fn mod_shr(a: u64, k: u64, bitwidth: u32) -> u64
    ensures { result ≡ mod_shr a k bitwidth }
{
    if k >= 64 {
        return 0;
    }
    (a >> k) & bitmask(bitwidth)
}

// The bit of m at place i, which is 0 from place 64 on. Added.
#[tactic(auto, using(crate::proofs::BitLaws::shr_and_one))]
pub fn bit(m: u64, i: u32) -> u64
    ensures { result ≡ bit_at m i }
{
    if i >= 64 {
        return 0;
    }
    (m >> i) & 1
}

// The bits of x that count in coeff * x modulo 2^w. Corresponds to term_refiner.rs 22-29.
#[tactic(auto, using(crate::proofs::EffectiveLaws::effective_none, crate::proofs::EffectiveLaws::effective_ones))]
pub fn effective_mask(coeff: u64, bitwidth: u32) -> u64
    ensures { result ≡ effective_mask coeff bitwidth }
{
    let tz = coeff.trailing_zeros();
    if tz >= bitwidth {
        return 0;
    }
    bitmask(bitwidth - tz)
}

// Whether old_coeff * (x & bitmask_val) is new_coeff * (x & bitmask_val) modulo 2^w for every x.
// Corresponds to term_refiner.rs 34-46.
#[tactic(auto, using(crate::proofs::EffectiveLaws::coefficient_test))]
pub fn can_change_coefficient_to(
    old_coeff: u64,
    new_coeff: u64,
    bitmask_val: u64,
    bitwidth: u32,
) -> bool
    ensures { result ≡ can_change_coefficient_to old_coeff new_coeff bitmask_val bitwidth }
{
    let d = mod_sub(old_coeff, new_coeff, bitwidth);
    (bitmask_val & effective_mask(d, bitwidth)) == 0
}

// Whether coeff * (x & old_mask) is coeff * (x & new_mask) modulo 2^w for every x.
// Corresponds to term_refiner.rs 51-54.
#[tactic(auto, using(crate::proofs::EffectiveLaws::mask_test))]
pub fn can_change_mask_to(coeff: u64, old_mask: u64, new_mask: u64, bitwidth: u32) -> bool
    ensures { result ≡ can_change_mask_to coeff old_mask new_mask bitwidth }
{
    ((old_mask ^ new_mask) & effective_mask(coeff, bitwidth)) == 0
}

// The bits of the mask that count beside coeff. Corresponds to term_refiner.rs 58-60.
#[tactic(auto, using(crate::proofs::EffectiveLaws::reduce_and))]
pub fn reduce_mask(coeff: u64, mask: u64, bitwidth: u32) -> u64
    ensures { result ≡ reduce_mask coeff mask bitwidth }
{
    mask & effective_mask(coeff, bitwidth)
}
