//! Laws of what lines say, told of the values under their names. Each form of a request and of the schedule has its law, also
//! those that scripts don't have yet.
ghost use Rattle.std.specs.Prelude.{◌≡◌, ℕ, ◌<◌, List, codes, decimal, length, pos, Bool, true, Some, None};
ghost use Rattle.n1ql_value.specs.declared.value.Value.TheVariants as value;
ghost use Rattle.scan_coord.specs.declared.demand.Demand.TheVariants.{NotBounded, AtPlus, Mine, RequestPlus};
ghost use Rattle.scan_history.specs.declared.turn.Turn.TheVariants as turn;
ghost use Rattle.seq_vector.specs.Vectors.{entry};
ghost use Rattle.script_text.specs.declared.reader.format.form.Form.TheVariants as form;
ghost use Rattle.script_text.specs.Members.{Members, value_at, optional_text};
ghost use Rattle.script_text.specs.Requests.{ask_of};
ghost use Rattle.script_text.specs.SparseVectors.{vector_of};
ghost use Rattle.script_text.specs.Turns.{turn_of};

/// Law: a sparse vector stands for a number at each vBucket: the one under its name, and 0 where it isn't named.
pub fn vectors_have_what_is_named()
    ensures size { (n : ℕ) (entries : Members) → length (vector_of n entries) ≡ n }
    ensures named { (n vb x : ℕ) (entries : Members) → vb < n → value_at (decimal vb) entries ≡ Some (value.Int (pos x)) → entry (vector_of n entries) vb ≡ x }
    ensures unnamed { (n vb : ℕ) (entries : Members) → vb < n → value_at (decimal vb) entries ≡ None → entry (vector_of n entries) vb ≡ 0 }
{}

/// Law: the consistency, and `at` beside `at_plus`, say what a request demands; `wait` says whether it waits, as it does where
/// nothing is said.
pub fn requests_ask_what_they_say()
    ensures nothing { (n : ℕ) (members : Members) → value_at (codes "consistency") members ≡ None → (ask_of n members).demand ≡ NotBounded }
    ensures all { (n : ℕ) (members : Members) → value_at (codes "consistency") members ≡ Some (value.Text (codes "request_plus")) → (ask_of n members).demand ≡ RequestPlus }
    ensures own { (n : ℕ) (members : Members) → value_at (codes "consistency") members ≡ Some (value.Text (codes "at_plus")) → value_at (codes "at") members ≡ Some (value.Text (codes "mine")) → (ask_of n members).demand ≡ Mine }
    ensures given { (n : ℕ) (members entries : Members) → value_at (codes "consistency") members ≡ Some (value.Text (codes "at_plus")) → value_at (codes "at") members ≡ Some (value.Object entries) → (ask_of n members).demand ≡ AtPlus (vector_of n entries) }
    ensures waits { (n : ℕ) (members : Members) → value_at (codes "wait") members ≡ None → (ask_of n members).wait ≡ true }
    ensures as_told { (n : ℕ) (members : Members) (wait : Bool) → value_at (codes "wait") members ≡ Some (value.Bool wait) → (ask_of n members).wait ≡ wait }
{}

/// Law: a line of the schedule gives the turn of its word, with the client, the vBucket, the index, the place and the vector
/// that it names; the place is the first where nothing is said.
pub fn lines_of_the_schedule_give_turns()
    ensures client { (n c : ℕ) (members : Members) → value_at (codes "c") members ≡ Some (value.Int (pos c)) → turn_of n form.Client members ≡ Some (turn.Client c) }
    ensures project { (n vb : ℕ) (members : Members) → value_at (codes "vb") members ≡ Some (value.Int (pos vb)) → turn_of n form.Project members ≡ Some (turn.Project vb (optional_text (codes "index") members)) }
    ensures deliver { (n place : ℕ) (index : List ℕ) (members : Members) → value_at (codes "index") members ≡ Some (value.Text index) → value_at (codes "place") members ≡ Some (value.Int (pos place)) → turn_of n form.Deliver members ≡ Some (turn.Deliver index place) }
    ensures first { (n : ℕ) (index : List ℕ) (members : Members) → value_at (codes "index") members ≡ Some (value.Text index) → value_at (codes "place") members ≡ None → turn_of n form.Deliver members ≡ Some (turn.Deliver index 0) }
    ensures lose { (n place : ℕ) (index : List ℕ) (members : Members) → value_at (codes "index") members ≡ Some (value.Text index) → value_at (codes "place") members ≡ Some (value.Int (pos place)) → turn_of n form.Lose members ≡ Some (turn.Lose index place) }
    ensures publish { (n : ℕ) (index : List ℕ) (members : Members) → value_at (codes "index") members ≡ Some (value.Text index) → turn_of n form.Publish members ≡ Some (turn.Publish index) }
    ensures rewind { (n : ℕ) (members entries : Members) → value_at (codes "to") members ≡ Some (value.Object entries) → turn_of n form.Rewind members ≡ Some (turn.Rewind (vector_of n entries) (optional_text (codes "index") members)) }
{}
