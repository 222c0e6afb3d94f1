// Room for the longest result slices, lent to every entry.
#[derive(Drop)]
pub struct Room {
    pub out: [u8; 57376],
    pub classes: [u64; 16464],
}
