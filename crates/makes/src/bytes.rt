// Slices of bytes, read and split with no condition on their length.
ghost use Rattle.std.specs.Prelude.{◌≡◌, take, drop, slice_index_or};

// The byte at the place, or `other` beyond the end.
pub(crate) fn byte_or(bytes: &[u8], place: usize, other: u8) -> u8
    ensures { result ≡ slice_index_or bytes.now place other }
{
    bytes.get(place).copied().unwrap_or(other)
}

// The first `n` bytes, or all where there are fewer, and the others.
pub(crate) fn split(bytes: &[u8], n: usize) -> (&[u8], &[u8])
    ensures front { result.0.now ≡ take n bytes.now }
    ensures back { result.1.now ≡ drop n bytes.now }
{
    bytes.split_at(n.min(bytes.len()))
}
