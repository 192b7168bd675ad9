//! Cells of bytes: the lowest byte says how many bytes a cell holds, 1 to 7, and these stand in the bytes above it.

ghost use Rattle.std.specs.Prelude.{◌≡◌, ◌<◌, ◌≤◌, ◌+◌, ◌++◌, take, length};
ghost use Rattle.wait_rule.specs.Pipes.{IsCell, cell_bytes};

/// The cell of 7 bytes.
fn full(piece: &[u8]) -> u64
    requires { length piece.now ≡ 7 }
    ensures bytes { cell_bytes result ≡ piece.now }
    ensures cell { IsCell result }
{
    u64::from_le_bytes([
        7, piece[0], piece[1], piece[2], piece[3], piece[4], piece[5], piece[6],
    ])
}

/// The cell of 1 to 6 bytes.
fn part(piece: &[u8]) -> u64
    requires some { 1 ≤ length piece.now }
    requires few { length piece.now < 7 }
    ensures bytes { cell_bytes result ≡ piece.now }
    ensures cell { IsCell result }
{
    match *piece {
        [a] => u64::from_le_bytes([1, a, 0, 0, 0, 0, 0, 0]),
        [a, b] => u64::from_le_bytes([2, a, b, 0, 0, 0, 0, 0]),
        [a, b, c] => u64::from_le_bytes([3, a, b, c, 0, 0, 0, 0]),
        [a, b, c, d] => u64::from_le_bytes([4, a, b, c, d, 0, 0, 0]),
        [a, b, c, d, e] => u64::from_le_bytes([5, a, b, c, d, e, 0, 0]),
        [a, b, c, d, e, f] => u64::from_le_bytes([6, a, b, c, d, e, f, 0]),
        _ => unreachable!(),
    }
}

/// The cell of 1 to 7 bytes.
pub fn pack(piece: &[u8]) -> u64
    requires some { 1 ≤ length piece.now }
    requires few { length piece.now ≤ 7 }
    ensures bytes { cell_bytes result ≡ piece.now }
    ensures cell { IsCell result }
{
    if piece.len() == 7 {
        full(piece)
    } else {
        part(piece)
    }
}

/// Writes the bytes of a cell into `buf` from place `at` on, and answers the place behind them. The 7 bytes from `at`
/// on are there to be written; what stands behind the cell's bytes is not told.
pub fn unpack(word: u64, buf: &mut [u8], at: usize) -> usize
    requires cell { IsCell word }
    requires room { at + 7 ≤ length buf.old }
    ensures same { length buf.new ≡ length buf.old }
    ensures more { at < result }
    ensures most { result ≤ at + 7 }
    ensures bytes { take result buf.new ≡ take at buf.old ++ cell_bytes word }
{
    let cell = word.to_le_bytes();
    buf[at..at + 7].copy_from_slice(&cell[1..8]);
    at + cell[0] as usize
}
