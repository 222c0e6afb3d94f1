// What every writer of a semilinear form hands over, and the answer of a refusal.
ghost use Rattle.std.specs.Prelude.{length};
ghost use Rattle.semilinear.specs.Answers.{IsRefused};

// The bytes used of the result slice; the count of terms; and a flag, which says of flattening
// whether it flattened.
#[derive(Drop)]
pub struct Answer {
    pub used: u64,
    pub terms: u64,
    pub flag: bool,
}

// Refuses, whatever stands for the refusal, a variant of Refusal or any number: all of out is zero.
pub fn refuse<R>(out: &mut [u8], refusal: R) -> Result<Answer, R>
    ensures { IsRefused refusal (length out.old) result out.new }
{
    out.fill(0);
    Err(refusal)
}
