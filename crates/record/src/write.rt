// Writers of records into lent bytes: any record, and that of a variable.
ghost use Rattle.std.specs.Prelude.{◌≡◌, ◌+◌, ◌%◌, ◌^◌, ◌<◌, ◌≤◌, length};
ghost use Rattle.record.specs.Tree.{record_bytes, encode};
ghost use Rattle.record.specs.Tree.Tree.{Variable};
ghost use Rattle.base.specs.Put.{put};
ghost use Rattle.base.specs.Limits.{record_length, var_limit};

use crate::kinds::Kind;
use base::write;

// Puts one record into d from index `at` on: kind k, byte 1 a, size n, width w, literal v.
pub fn put_record(d: &mut [u8], at: usize, k: u8, a: u8, n: u64, w: u8, v: u64)
    requires { (at + record_length ≤ length d.old) × (n < 2 ^ 16) }
    ensures { d.new ≡ put d.old at (record_bytes k a n w v) }
{
    let [low, high] = (n as u16).to_le_bytes();
    let mut r = [k, a, low, high, w, 0, 0, 0, 0, 0, 0, 0, 0, 0, 0, 0];
    r[8..].copy_from_slice(&v.to_le_bytes());
    write::put(d, at, &r);
}

// Puts the record of variable v into d from index `at` on, at width w.
pub fn put_variable(d: &mut [u8], at: usize, v: u64, w: u8)
    requires { (at + record_length ≤ length d.old) × (v < var_limit) }
    ensures { d.new ≡ put d.old at (encode w (Variable v)) }
{
    let [low, high] = (v as u16).to_le_bytes();
    let r = [
        Kind::Variable as u8,
        low,
        1,
        0,
        w,
        high,
        0,
        0,
        0,
        0,
        0,
        0,
        0,
        0,
        0,
        0,
    ];
    write::put(d, at, &r);
}
