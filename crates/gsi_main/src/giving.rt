ghost use Rattle.std.specs.Prelude.{◌≡◌, ◌<◌, [], ◌++◌, drop, length, min, take};

/// Copies a prefix of the bytes left, of at most `most` bytes, to the beginning of the buffer, and gives its length.
pub(crate) fn give(left: &[u8], most: usize, buf: &mut [u8]) -> usize
    ensures count { result ≡ min (min most (length buf.old)) (length left.now) }
    ensures moved { left.now ≡ take result buf.new ++ drop result left.now }
    ensures end { result ≡ 0 → 0 < most → 0 < length buf.old → left.now ≡ [] }
{
    let count = most.min(buf.len()).min(left.len());
    buf[..count].copy_from_slice(&left[..count]);
    count
}
