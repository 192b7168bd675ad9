//! The numbers by which the order is drawn in which tasks of one thread take turns.

/// The next number of a small generator.
pub fn next_number(seed: u32) -> u32 {
    let mixed = seed ^ seed.wrapping_shl(13);
    let mixed = mixed ^ mixed.wrapping_shr(17);
    mixed ^ mixed.wrapping_shl(5)
}
