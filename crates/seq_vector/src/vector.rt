ghost use Rattle.std.specs.Prelude.{◌≡◌, ◌+◌, ◌<◌, ◌≤◌, ◌↔◌, IsTrue, IsNone, IfSome, IfOk, length, slice_set};
ghost use Rattle.n1ql_value.specs.Limits.{max_vbuckets};
ghost use Rattle.seq_vector.specs.Vectors.{entry, zeros, IsCovered, IsFirstShort, covers, first_short, join, meet};

use n1ql_value::Memory;
use std::alloc::Global;
use std::marker::Model;

/// A sequence number for each vBucket, of which there are 1 to 1,024. Contracts see the list of the numbers.
#[derive(Debug, Drop)]
pub struct Vector {
    numbers: Vec<u64>,
}

impl Model for Vector {
    ghost use Rattle.std.specs.Prelude.{List, ℕ, ◌<◌, ◌≤◌, vec_len};
    ghost use Rattle.n1ql_value.specs.Limits.{max_vbuckets};

    ghost Value = { List ℕ };

    ghost view = { λ v. v.numbers.items };

    ghost invariant = { λ v. (0 < vec_len v.numbers) × (vec_len v.numbers ≤ max_vbuckets) };
}

/// The vector of `n` vBuckets in which nothing has come yet.
///
/// # Errors
///
/// `Memory` where it ran out.
pub fn zero(alloc: Global, n: u32) -> Result<Vector, Memory>
    requires { (0 < n) × (n ≤ max_vbuckets) }
    ensures { IfOk result (λ v. v ≡ zeros n) }
{
    let numbers = vec![in alloc; 0; n as usize]?;
    Ok(Vector { numbers })
}

impl Vector {
    /// The number of vBuckets.
    pub fn len(&self) -> u32
        ensures count { result ≡ length self.now }
        ensures bounds { (0 < result) × (result ≤ max_vbuckets) }
    {
        self.numbers.len() as u32
    }

    /// The number at a vBucket.
    pub fn get(&self, vb: u32) -> u64
        requires { vb < length self.now }
        ensures { result ≡ entry self.now vb }
    {
        self.numbers[vb as usize]
    }

    /// Puts a number at a vBucket.
    pub fn set(&mut self, vb: u32, to: u64)
        requires { vb < length self.old }
        ensures { self.new ≡ slice_set self.old vb to }
    {
        self.numbers[vb as usize] = to;
    }

    /// Whether each entry is at least the other's.
    pub fn covers(&self, other: &Vector) -> bool
        requires { length self.now ≡ length other.now }
        ensures test { result ≡ covers self.now other.now }
        ensures entries { IsTrue result ↔ IsCovered other.now self.now }
    {
        self.first_short(other).is_none()
    }

    /// The least vBucket at which this vector is below `want`. `None` exactly where it covers `want`.
    pub fn first_short(&self, want: &Vector) -> Option<u32>
        requires { length self.now ≡ length want.now }
        ensures test { result ≡ first_short self.now want.now }
        ensures none { IsNone result ↔ IsCovered want.now self.now }
        ensures first { IfSome result (IsFirstShort self.now want.now) }
    {
        for vb in 0..self.len() {
            if self.get(vb) < want.get(vb) {
                return Some(vb);
            }
        }
        None
    }

    /// Raises each entry to the other's: the pointwise maximum.
    pub fn join_in(&mut self, other: &Vector)
        requires { length self.old ≡ length other.now }
        ensures { self.new ≡ join self.old other.now }
    {
        for vb in 0..other.len() {
            let most = self.get(vb).max(other.get(vb));
            self.set(vb, most);
        }
    }

    /// Lowers each entry to the other's: the pointwise minimum.
    pub fn meet_in(&mut self, other: &Vector)
        requires { length self.old ≡ length other.now }
        ensures { self.new ≡ meet self.old other.now }
    {
        for vb in 0..other.len() {
            let least = self.get(vb).min(other.get(vb));
            self.set(vb, least);
        }
    }

    /// A vector with the same numbers.
    ///
    /// # Errors
    ///
    /// `Memory` where it ran out.
    pub fn copy(&self, alloc: Global) -> Result<Vector, Memory>
        ensures { IfOk result (λ v. v ≡ self.now) }
    {
        let numbers = Vec::from_slice(alloc, self.numbers.as_slice())?;
        Ok(Vector { numbers })
    }
}
