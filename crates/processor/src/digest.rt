//! Digests of words, by which equal worlds are found.

// 2**64 divided by the golden ratio, made odd (Fibonacci hashing).
const FACTOR: u64 = 0x9E37_79B9_7F4A_7C15;

/// A digest with one number more.
pub fn digest_with(digest: u64, number: u64) -> u64 {
    (digest ^ number).wrapping_mul(FACTOR).rotate_left(29)
}
