ghost use Rattle.std.specs.Prelude.{◌≡◌, decimal, IfOk};
ghost use Rattle.script_text.specs.Members.{count_at};
ghost use Rattle.script_text.specs.SparseVectors.{vector_of, vector_of_value};
ghost use Rattle.script_text.specs.inner.Lines.{IsVBucketCount};

use crate::reader::values::members::count_under;
use n1ql_value::{Memory, Pairs, Value};
use seq_vector::{Vector, zero};
use std::alloc::Global;

/// The vector of so many vBuckets that a sparse vector stands for.
pub(crate) fn vector_of_value(alloc: Global, vbuckets: u32, value: &Value) -> Result<Vector, Memory>
    requires { IsVBucketCount vbuckets }
    ensures { IfOk result (λ vector. vector ≡ vector_of_value vbuckets value.now) }
{
    match value {
        Value::Object(entries) => vector_of(alloc, vbuckets, entries),
        _ => vector_of(alloc, vbuckets, &Pairs::new(alloc)),
    }
}

/// The vector of so many vBuckets that entries give. Entries are in order of names, so each is found by a binary search.
pub(crate) fn vector_of(alloc: Global, vbuckets: u32, entries: &Pairs) -> Result<Vector, Memory>
    requires { IsVBucketCount vbuckets }
    ensures { IfOk result (λ vector. vector ≡ vector_of vbuckets entries.now) }
{
    let mut vector = zero(alloc, vbuckets)?;
    for vb in 0..vbuckets {
        vector.set(vb, entry_of(entries, vb));
    }
    Ok(vector)
}

/// The number that a sparse vector has for a vBucket.
fn entry_of(entries: &Pairs, vb: u32) -> u64
    ensures { result ≡ count_at (decimal vb) 0 entries.now }
{
    let mut buffer = itoa::Buffer::new();
    count_under(entries, buffer.format(vb), 0)
}
