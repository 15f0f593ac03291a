//! Ranges of the bytes of a source.

/// Returns the bytes from one number up to another, or no bytes if the source doesn't have them.
pub fn bytes_in(source: &[u8], from: usize, to: usize) -> &[u8] {
    if from <= to && to <= source.len() {
        &source[from..to]
    } else {
        &source[..0]
    }
}
