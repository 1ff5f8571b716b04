ghost use Rattle.std.specs.Prelude.{◌≡◌, ◌↔◌, IsTrue, Some, None, ℕ, List, ◌<◌, ◌≤◌, min, max, length};
ghost use Rattle.seq_vector.specs.Vectors.{entry, IsCovered, IsFirstShort, covers, first_short, join, meet};

/// Law: to cover is an order on vectors of as many vBuckets.
pub fn cover_is_order()
    ensures reflexive { (v : List ℕ) → IsCovered v v }
    ensures transitive { (u v w : List ℕ) → length u ≡ length v → IsCovered u v → IsCovered v w → IsCovered u w }
    ensures antisymmetric { (v w : List ℕ) → length v ≡ length w → IsCovered v w → IsCovered w v → v ≡ w }
{}

/// Law: the two tests answer what is told of each vBucket: `covers` is true exactly where the one reaches the other everywhere,
/// and `first_short` gives the least vBucket where it doesn't, and none exactly where there is none.
pub fn tests_tell_of_each_vbucket()
    ensures covers { (have want : List ℕ) → IsTrue (covers have want) ↔ IsCovered want have }
    ensures short { (have want : List ℕ) (vb : ℕ) → (first_short have want ≡ Some vb) ↔ IsFirstShort have want vb }
    ensures none { (have want : List ℕ) → (first_short have want ≡ None) ↔ IsCovered want have }
{}

/// Law: the join is the least vector that covers both.
pub fn join_is_least()
    ensures size { (v w : List ℕ) → length v ≡ length w → length (join v w) ≡ length v }
    ensures entries { (v w : List ℕ) (vb : ℕ) → length v ≡ length w → entry (join v w) vb ≡ max (entry v vb) (entry w vb) }
    ensures covers_first { (v w : List ℕ) → length v ≡ length w → IsCovered v (join v w) }
    ensures covers_second { (v w : List ℕ) → length v ≡ length w → IsCovered w (join v w) }
    ensures least { (v w u : List ℕ) → length v ≡ length w → IsCovered v u → IsCovered w u → IsCovered (join v w) u }
{}

/// Law: the meet is the greatest vector that both cover.
pub fn meet_is_greatest()
    ensures size { (v w : List ℕ) → length v ≡ length w → length (meet v w) ≡ length v }
    ensures entries { (v w : List ℕ) (vb : ℕ) → length v ≡ length w → entry (meet v w) vb ≡ min (entry v vb) (entry w vb) }
    ensures under_first { (v w : List ℕ) → length v ≡ length w → IsCovered (meet v w) v }
    ensures under_second { (v w : List ℕ) → length v ≡ length w → IsCovered (meet v w) w }
    ensures greatest { (v w u : List ℕ) → length v ≡ length w → IsCovered u v → IsCovered u w → IsCovered u (meet v w) }
{}
