//! Laws of streams and pieces: each is the contract of a function that does nothing.
ghost use Rattle.std.specs.Prelude.{◌≡◌, ℕ, ◌<◌, ◌≤◌, List, ◌++◌, length, Some};
ghost use Rattle.std.specs.Option.{option_map};
ghost use Rattle.seq_vector.specs.Vectors.{entry, IsCovered};
ghost use Rattle.vb_store.specs.declared.mutation.Mutation.{Mutation};
ghost use Rattle.vb_store.specs.Mutations.{IsNumbered, high_of};
ghost use Rattle.dcp_stream.specs.declared.piece.Piece.{Piece};
ghost use Rattle.dcp_stream.specs.Streams.{Stream, Bounds, IsStream, next_bounds, passed, advanced, rewound};
ghost use Rattle.dcp_stream.specs.Pieces.{PieceStands, Marked, bounds_of, next_piece, after_any, back_to};

/// Law of growth: a piece that stands for mutations stands for them where more come.
pub fn growth()
    ensures { (n : ℕ) (log more : List Mutation) (piece : Piece)
        → IsNumbered n (log ++ more) → PieceStands n log piece → PieceStands n (log ++ more) piece }
{
    vb_store::laws::growth();
    vb_store::laws::high_counts();
}

/// Law of numbers: what a stream gives, and where it stands then, follows from numbers alone.
pub fn numbers_decide()
    ensures next { (n : ℕ) (log : List Mutation) (most vb : ℕ) (m : Marked)
        → option_map bounds_of (next_piece n log most vb m) ≡ next_bounds (high_of n log) most vb m.stream }
    ensures after { (n : ℕ) (log : List Mutation) (most vb : ℕ) (m : Marked)
        → (after_any (next_piece n log most vb m) m).stream ≡ advanced (high_of n log) most vb m.stream }
    ensures back { (to : List ℕ) (m : Marked) → (back_to to m).stream ≡ rewound to m.stream }
{}

/// Law of the next numbers: they lie behind those that were given, in a marker that lies in what was accepted.
pub fn next_numbers()
    ensures bounds { (high : List ℕ) (most vb : ℕ) (s : Stream) (b : Bounds)
        → IsStream s → IsCovered s.ends high → vb < length s.at → 0 < most → next_bounds high most vb s ≡ Some b
        → (b.vb ≡ vb) × (1 ≤ b.from) × (b.from ≤ b.to) × (b.to ≤ b.end) × (b.end ≤ entry high vb) }
    ensures stream { (high : List ℕ) (most vb : ℕ) (s : Stream)
        → IsStream s → IsCovered s.ends high → vb < length s.at → IsStream (advanced high most vb s) }
    ensures reached { (high : List ℕ) (most vb : ℕ) (s : Stream)
        → IsStream s → IsCovered s.ends high → vb < length s.at → IsCovered (advanced high most vb s).ends high }
    ensures size { (high : List ℕ) (most vb : ℕ) (s : Stream) → length (advanced high most vb s).at ≡ length s.at }
{}

/// Law of going back: a stream that went back is one, and its markers end where they ended, or before.
pub fn going_back()
    ensures stream { (to : List ℕ) (s : Stream) → length s.at ≡ length to → IsStream s → IsStream (rewound to s) }
    ensures within { (to : List ℕ) (s : Stream) → length s.at ≡ length to → IsStream s → IsCovered (rewound to s).ends s.ends }
    ensures size { (to : List ℕ) (s : Stream) → length s.at ≡ length to → length (rewound to s).at ≡ length s.at }
{
    seq_vector::laws::meet_is_greatest();
}
