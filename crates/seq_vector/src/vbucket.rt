ghost use Rattle.std.specs.Prelude.{◌≡◌, ◌<◌};
ghost use Rattle.seq_vector.specs.Vectors.{fnv1a, vbucket_of};

/// The vBucket of an id among `n`: FNV-1a of 32 bits over its bytes, modulo `n`.
pub fn vb_of(id: &str, n: u32) -> u32
    requires { 0 < n }
    ensures bucket { result ≡ vbucket_of id.now n }
    ensures within { result < n }
{
    fnv1a_of(id.as_bytes()) % n
}

fn fnv1a_of(bytes: &[u8]) -> u32
    ensures { result ≡ fnv1a bytes.now }
{
    let mut hash: u32 = 2_166_136_261;
    for byte in bytes {
        hash = (hash ^ u32::from(*byte)).wrapping_mul(16_777_619);
    }
    hash
}
