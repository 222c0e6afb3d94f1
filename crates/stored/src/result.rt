// A result slice of bytes is held to the expected bytes.
ghost use Rattle.std.specs.Prelude.{◌≡◌, length};

// Whether every byte of the result slice is right: those of wanted and zeros behind them, and on
// refusal zeros alone.
pub fn result_ok(refusal: u64, out: &[u8], wanted: &[u8]) -> bool {
    let n = if refusal == 0 { wanted.len() } else { 0 };
    out.starts_with(&wanted[..n]) && out[n..].iter().all(|b| *b == 0)
}

// Room for the second slice.
pub fn spare_room() -> [u8; 57376]
    ensures { 57376 ≡ length result }
{
    [0; 57376]
}
