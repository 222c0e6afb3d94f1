// Readers of 16-byte records: numbers, the fields of a span's root, and the spans of its children;
// the writers stand in `write`.
#![tactic(auto)]

pub mod kinds;
pub mod write;

ghost use Rattle.std.specs.Prelude.{◌≡◌, ℕ, ◌+◌, ◌-◌, ◌*◌, ◌%◌, ◌^◌, ◌<◌, ◌≤◌, length};
ghost use Rattle.base.specs.Lists.{eq_list};
ghost use Rattle.record.specs.Fields.{u16, u32, u64, kind, byte1, byte5, var_index, amount};
ghost use Rattle.record.specs.Fields.{size, width, spare_high, spare, literal, arity};
ghost use Rattle.record.specs.Span.{cut, body, left, right};
ghost use Rattle.base.specs.Limits.{record_length, var_limit};

use crate::kinds::Kind;
use base::limits;

// The length of a record is this power of 2, and the bits below it: no number needs a division.
const LENGTH_POWER: usize = 4;

const LENGTH_BITS: usize = limits::RECORD_LENGTH - 1;

// The number of the record at a byte place, both counted from the same start.
pub fn number_of(place: usize) -> usize
    requires { place % record_length ≡ 0 }
    ensures { record_length * result ≡ place }
{
    place >> LENGTH_POWER
}

// How many of n bytes stand behind the last whole record.
pub fn odd_bytes(n: usize) -> usize
    ensures { result ≡ n % record_length }
{
    n & LENGTH_BITS
}

// The two bytes at i, little-endian.
#[tactic(auto, unfolding(crate::specs::Fields::u16))]
pub fn read_u16(t: &[u8], i: usize) -> u64
    requires { i + 1 < length t.now }
    ensures { (result ≡ u16 t.now i) × (result < 2 ^ 16) }
{
    u64::from(u16::from_le_bytes([t[i], t[i + 1]]))
}

// The four bytes at i, little-endian.
#[tactic(auto, unfolding(crate::specs::Fields::u32, crate::specs::Fields::u16))]
pub fn read_u32(t: &[u8], i: usize) -> u64
    requires { i + 3 < length t.now }
    ensures { (result ≡ u32 t.now i) × (result < 2 ^ 32) }
{
    u64::from(u32::from_le_bytes([t[i], t[i + 1], t[i + 2], t[i + 3]]))
}

// The eight bytes at i, little-endian.
#[tactic(auto, unfolding(crate::specs::Fields::u64, crate::specs::Fields::u32, crate::specs::Fields::u16))]
pub fn read_u64(t: &[u8], i: usize) -> u64
    requires { i + 7 < length t.now }
    ensures { result ≡ u64 t.now i }
{
    u64::from_le_bytes([
        t[i],
        t[i + 1],
        t[i + 2],
        t[i + 3],
        t[i + 4],
        t[i + 5],
        t[i + 6],
        t[i + 7],
    ])
}

// The kind of the root.
#[tactic(auto, unfolding(crate::specs::Fields::kind))]
pub fn kind(t: &[u8]) -> u8
    requires { record_length ≤ length t.now }
    ensures { result ≡ kind t.now }
{
    t[t.len() - limits::RECORD_LENGTH]
}

// Byte 1 of the root, as it stands.
#[tactic(auto, unfolding(crate::specs::Fields::byte1))]
pub fn byte1(t: &[u8]) -> u8
    requires { record_length ≤ length t.now }
    ensures { result ≡ byte1 t.now }
{
    t[t.len() - 15]
}

// Byte 5 of the root, as it stands.
#[tactic(auto, unfolding(crate::specs::Fields::byte5))]
fn byte5(t: &[u8]) -> u8
    requires { record_length ≤ length t.now }
    ensures { result ≡ byte5 t.now }
{
    t[t.len() - 11]
}

// The variable number of a root of kind Variable.
#[tactic(auto, unfolding(crate::specs::Fields::var_index))]
pub fn var_index(t: &[u8]) -> u64
    requires { record_length ≤ length t.now }
    ensures { (result ≡ var_index t.now) × (result < var_limit) }
{
    u64::from(byte1(t)) + u64::from(byte5(t)) * 0x100
}

// The shift count of a root of kind Shr, 0 for Not and Neg.
#[tactic(auto, unfolding(crate::specs::Fields::amount))]
pub fn amount(t: &[u8]) -> u64
    requires { record_length ≤ length t.now }
    ensures { (result ≡ amount t.now) × (result < 256) }
{
    u64::from(byte1(t))
}

// The size field of the root.
#[tactic(auto, unfolding(crate::specs::Fields::size))]
pub fn size(t: &[u8]) -> u64
    requires { record_length ≤ length t.now }
    ensures { (result ≡ size t.now) × (result < 2 ^ 16) }
{
    read_u16(t, t.len() - 14)
}

// The width of the root.
#[tactic(auto, unfolding(crate::specs::Fields::width))]
pub fn width(t: &[u8]) -> u8
    requires { record_length ≤ length t.now }
    ensures { result ≡ width t.now }
{
    t[t.len() - 12]
}

// Bytes 6 and 7 of the root.
#[tactic(auto, unfolding(crate::specs::Fields::spare_high))]
pub fn spare_high(t: &[u8]) -> u64
    requires { record_length ≤ length t.now }
    ensures { (result ≡ spare_high t.now) × (result < 2 ^ 16) }
{
    read_u16(t, t.len() - 10)
}

// Byte 5 of the root and the two behind it, as a sum.
#[tactic(auto, unfolding(crate::specs::Fields::spare))]
pub fn spare(t: &[u8]) -> u64
    requires { record_length ≤ length t.now }
    ensures { result ≡ spare t.now }
{
    u64::from(byte5(t)) + spare_high(t)
}

// The literal of the root.
#[tactic(auto, unfolding(crate::specs::Fields::literal))]
pub fn literal(t: &[u8]) -> u64
    requires { record_length ≤ length t.now }
    ensures { result ≡ literal t.now }
{
    read_u64(t, t.len() - 8)
}

// How many children a kind has.
#[tactic(auto, unfolding(crate::specs::Fields::arity))]
pub fn arity(k: u8) -> u8
    ensures { result ≡ arity k }
{
    if k <= Kind::Variable as u8 {
        0
    } else if k <= Kind::Xor as u8 {
        2
    } else if k <= Kind::Trunc as u8 {
        1
    } else {
        2
    }
}

// How many children the root has.
pub fn root_arity(t: &[u8]) -> u8
    requires { record_length ≤ length t.now }
    ensures { result ≡ arity (kind t.now) }
{
    arity(kind(t))
}

// Where the right child's span begins, of a root with two children.
#[tactic(auto, unfolding(crate::specs::Span::cut))]
pub fn cut(t: &[u8]) -> usize
    ensures { (result ≡ cut t.now) × (result ≤ length t.now - record_length) }
{
    if t.len() < 32 {
        return 0;
    }
    let size = read_u16(t, t.len() - 30) as usize;
    (t.len() - limits::RECORD_LENGTH).saturating_sub(size * limits::RECORD_LENGTH)
}

// The span of the only child.
#[tactic(auto, unfolding(crate::specs::Span::body))]
pub fn body(t: &[u8]) -> &[u8]
    ensures { result.now ≡ body t.now }
{
    &t[..t.len().saturating_sub(limits::RECORD_LENGTH)]
}

// The span of the left child.
#[tactic(auto, unfolding(crate::specs::Span::left))]
pub fn left(t: &[u8]) -> &[u8]
    ensures { result.now ≡ left t.now }
{
    &t[..cut(t)]
}

// The span of the right child.
#[tactic(auto, unfolding(crate::specs::Span::right))]
pub fn right(t: &[u8]) -> &[u8]
    ensures { result.now ≡ right t.now }
{
    &t[cut(t)..t.len().saturating_sub(limits::RECORD_LENGTH)]
}

// Whether a and b hold the same bytes. Trees are equal when their bytes are. It stays beside `==`
// since its contract is a claim of docs/CLAIMS.md.
pub fn same_bytes(a: &[u8], b: &[u8]) -> bool
    ensures { result ≡ eq_list a.now b.now }
{
    a == b
}
