//! Laws of offers: each is the contract of a function that does nothing.
ghost use Rattle.std.specs.Prelude.{◌≡◌, ◌↔◌, ℕ, ◌+◌, ◌<◌, ◌≤◌, max, List, length, slice_set};
ghost use Rattle.seq_vector.specs.Vectors.{entry, IsCovered};
ghost use Rattle.stability.specs.Offers.{Tracked, offer_of, tracked};
ghost use Rattle.stability.specs.declared.offer.Offer.TheVariants as offer;

/// Law of the three answers: a repeat is where no number is new, a gap where one before them is missing, and they are next
/// where neither is so. The answers name the numbers.
pub fn three_answers()
    ensures repeat { (have from to : ℕ) → (offer_of have from to ≡ offer.Repeat) ↔ (to ≤ have) }
    ensures gap { (have from to h f : ℕ) → from ≤ to
        → (offer_of have from to ≡ offer.Gap h f) ↔ ((have + 1 < from) × (h ≡ have) × (f ≡ from)) }
    ensures next { (have from to after : ℕ) → from ≤ to
        → (offer_of have from to ≡ offer.Next after) ↔ ((have < to) × (from ≤ have + 1) × (after ≡ have)) }
{}

/// Law of what was taken: in the vBucket it is the greater of what it was and the piece's last number, unless there was a gap,
/// and it is as before in all others.
pub fn numbers_rise()
    ensures own { (t : Tracked) (vb from to end : ℕ) → vb < length t.at → from ≤ entry t.at vb + 1
        → entry (tracked vb to end (offer_of (entry t.at vb) from to) t).at vb ≡ max (entry t.at vb) to }
    ensures others { (t : Tracked) (vb from to end k : ℕ) → (k ≡ vb → ⊥)
        → entry (tracked vb to end (offer_of (entry t.at vb) from to) t).at k ≡ entry t.at k }
    ensures gap { (t : Tracked) (vb from to end : ℕ) → entry t.at vb + 1 < from → from ≤ to
        → tracked vb to end (offer_of (entry t.at vb) from to) t ≡ t }
{}
