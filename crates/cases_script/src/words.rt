// Words of a table. What lies past it is 0, and is not written.

pub fn get(table: &[u32], i: usize) -> u32 {
    table.get(i).copied().unwrap_or(0)
}

pub fn put(table: &mut [u32], i: usize, v: u32) {
    if i < table.len() {
        table[i] = v;
    }
}

// The words from `first` on become 0, n of them.
pub fn clear(table: &mut [u32], first: usize, n: usize) {
    for word in table.iter_mut().skip(first).take(n) {
        *word = 0;
    }
}

// The words from `first` on; none past the table.
pub fn from(table: &[u32], first: usize) -> &[u32] {
    table.get(first..).unwrap_or(&[])
}

// Where record n begins among records of so many words; far past every table for 0.
pub fn start(n: u32, width: usize) -> usize {
    (std::num::wrapping_sub_u32(n, 1) as usize).saturating_mul(width)
}
