// What lent words hold before a call.

// Words that stand equally far apart.
pub fn fill(words: &mut [u32], first: u32, apart: u32) {
    let mut next = first;
    for word in words.iter_mut() {
        *word = next;
        next = next.wrapping_add(apart);
    }
}

// A word at a place, where there is one.
pub fn store(words: &mut [u32], i: usize, x: u32) {
    if let Some(word) = words.get_mut(i) {
        *word = x;
    }
}
