// A result slice of words is held to the expected words.

// Whether every word of the result slice is right: those of wanted, little-endian, and zeros behind
// them, and on refusal zeros alone.
pub fn result_ok(refusal: u64, out: &[u64], wanted: &[u8]) -> bool {
    let (words, _) = wanted.as_chunks::<8>();
    let n = if refusal == 0 { words.len() } else { 0 };
    if out.len() < n {
        return false;
    }
    let mut front = out[..n].iter().zip(words);
    front.all(|(x, word)| *x == u64::from_le_bytes(*word)) && out[n..].iter().all(|x| *x == 0)
}
