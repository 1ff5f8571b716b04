ghost use Rattle.std.specs.Prelude.{◌≡◌, ℕ, ◌+◌, ◌-◌, ◌<◌, ◌≤◌, Some, nat_lt, slice_get, List, [], ◌∷◌, ◌++◌, length, slice_set, slice_range};
ghost use Rattle.std.specs.List.{filter, Contains};
ghost use Rattle.std.specs.FinMap.{get, empty};
ghost use Rattle.seq_vector.specs.Vectors.{entry, IsCovered, zeros, vbucket_of};
ghost use Rattle.vb_store.specs.declared.mutation.Mutation.{Mutation};
ghost use Rattle.vb_store.specs.Mutations.{of_vbucket, count_of, IsNumbered, IsNext, high_of, slice_of, current_of};
ghost use Rattle.vb_store.specs.Documents.{with_mutation, with_mutations, reaches, documents_at, body_of};

/// Law of growth: mutations that come later change nothing at a vector that the list had reached.
pub fn growth()
    ensures documents { (n : ℕ) (log more : List Mutation) (v : List ℕ)
        → IsNumbered n (log ++ more) → IsCovered v (high_of n log)
        → documents_at (log ++ more) v ≡ documents_at log v }
    ensures slices { (n : ℕ) (log more : List Mutation) (vb after upto : ℕ)
        → IsNumbered n (log ++ more) → upto ≤ count_of vb log
        → slice_of (log ++ more) vb after upto ≡ slice_of log vb after upto }
    ensures front { (n : ℕ) (log more : List Mutation) → IsNumbered n (log ++ more) → IsNumbered n log }
{}

/// Law of the start: at the vector of zeros there are no documents.
pub fn start()
    ensures { (n k : ℕ) (log : List Mutation) → IsNumbered n log → documents_at log (zeros k) ≡ empty }
{}

/// Law of the next mutation: one more number of a vBucket is the one change of its mutation.
pub fn next_mutation()
    ensures { (n : ℕ) (log : List Mutation) (v : List ℕ) (m : Mutation)
        → IsNumbered n log → Contains log m → m.vb < length v → entry v m.vb + 1 ≡ m.seqno
        → documents_at log (slice_set v m.vb m.seqno) ≡ with_mutation (documents_at log v) m }
{}

/// Law of a slice: more numbers of a vBucket are the changes of its mutations, in order.
pub fn next_slice()
    ensures { (n : ℕ) (log : List Mutation) (v : List ℕ) (vb upto : ℕ)
        → IsNumbered n log → vb < length v → entry v vb ≤ upto
        → documents_at log (slice_set v vb upto) ≡ with_mutations (documents_at log v) (slice_of log vb (entry v vb) upto) }
{}

/// Law of the numbers in a slice: it has each of them once, in order, and falls into slices at any number within it.
pub fn slice_numbers()
    ensures places { (n : ℕ) (log : List Mutation) (vb after upto : ℕ)
        → IsNumbered n log → slice_of log vb after upto ≡ slice_range (of_vbucket vb log) after upto }
    ensures size { (n : ℕ) (log : List Mutation) (vb after upto : ℕ)
        → IsNumbered n log → upto ≤ count_of vb log → length (slice_of log vb after upto) ≡ upto - after }
    ensures parts { (n : ℕ) (log : List Mutation) (vb after mid upto : ℕ)
        → IsNumbered n log → after ≤ mid → mid ≤ upto
        → slice_of log vb after upto ≡ slice_of log vb after mid ++ slice_of log vb mid upto }
    ensures above { (log : List Mutation) (vb after mid upto : ℕ)
        → after ≤ mid → filter (λ m. nat_lt mid m.seqno) (slice_of log vb after upto) ≡ slice_of log vb mid upto }
    ensures numbers { (n : ℕ) (log : List Mutation) (vb after upto k : ℕ) (m : Mutation)
        → IsNumbered n log → slice_get (slice_of log vb after upto) k ≡ Some m
        → (m.vb ≡ vb) × (m.seqno ≡ after + k + 1) × (m.vb ≡ vbucket_of m.id n) }
{}

/// Law of an append: at the newest numbers it is the one change of its mutation.
pub fn append_changes()
    ensures documents { (n : ℕ) (log : List Mutation) (m : Mutation)
        → IsNumbered n (log ++ m ∷ []) → 0 < n
        → documents_at (log ++ m ∷ []) (high_of n (log ++ m ∷ [])) ≡ with_mutation (documents_at log (high_of n log)) m }
    ensures numbered { (n : ℕ) (log : List Mutation) (m : Mutation)
        → IsNumbered n log → IsNext n log m → IsNumbered n (log ++ m ∷ []) }
    ensures high { (n : ℕ) (log : List Mutation) (m : Mutation)
        → IsNext n log m → high_of n (log ++ m ∷ []) ≡ slice_set (high_of n log) m.vb m.seqno }
{}

/// Law of the newest numbers: there are n, each is the count of its vBucket's mutations, and one more mutation raises its own
/// by one.
pub fn high_counts()
    ensures size { (n : ℕ) (log : List Mutation) → length (high_of n log) ≡ n }
    ensures entries { (n : ℕ) (log : List Mutation) (vb : ℕ) → vb < n → entry (high_of n log) vb ≡ count_of vb log }
    ensures none { (n : ℕ) → high_of n [] ≡ zeros n }
    ensures grows { (n : ℕ) (log more : List Mutation) → IsCovered (high_of n log) (high_of n (log ++ more)) }
    ensures next { (n : ℕ) (log : List Mutation) (m : Mutation)
        → high_of n (log ++ m ∷ []) ≡ slice_set (high_of n log) m.vb (entry (high_of n log) m.vb + 1) }
    ensures few { (n : ℕ) (log : List Mutation) (vb : ℕ) → entry (high_of n log) vb ≤ length log }
{}

/// Law of the last mutation: it is what leaves the document of its id.
pub fn last_mutation_counts()
    ensures at_vector { (log : List Mutation) (v id : List ℕ)
        → get (documents_at log v) id ≡ body_of (current_of (filter (reaches v) log) id) }
    ensures at_high { (n : ℕ) (log : List Mutation) (id : List ℕ)
        → IsNumbered n log → 0 < n
        → get (documents_at log (high_of n log)) id ≡ body_of (current_of log id) }
{}

/// Law of the newest documents: at the newest numbers all mutations have come.
pub fn newest_documents()
    ensures { (n : ℕ) (log : List Mutation)
        → IsNumbered n log → 0 < n → documents_at log (high_of n log) ≡ with_mutations empty log }
{}
