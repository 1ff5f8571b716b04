//! Replays that were worked by hand: each is the contract of a function that does nothing.
ghost use Rattle.std.specs.Prelude.{◌≡◌, ℕ, true, false, List, Option, Some, None};
ghost use Rattle.n1ql_value.specs.declared.value.Value.{Value};
ghost use Rattle.n1ql_ast.specs.declared.expr.Expr.{Expr};
ghost use Rattle.n1ql_ast.specs.declared.key.Key.{Key};
ghost use Rattle.index_def.specs.Deferral.{is_build_deferred};
ghost use Rattle.index_def.specs.Reasons.{first_reason};
ghost use Rattle.index_def.specs.declared.reason.Reason.TheVariants.{ConstantKey};
ghost use Rattle.gsi_sched.specs.Replay.{history_of};
ghost use Rattle.gsi_sched.specs.WorkedRequests as requests;
ghost use Rattle.gsi_sched.specs.WorkedScripts as worked;
ghost use Rattle.gsi_sched.specs.WorkedStatements as statements;
ghost use Rattle.gsi_sched.specs.WorkedStreams as streams;

/// Eight documents are put, and then an index is created and asked.
pub fn each_document_once()
    ensures { (doc : ℕ → Value) → history_of (worked.creates worked.ix_creation) (streams.each_document_once_script doc) ≡ streams.each_document_once doc worked.ix_creation }
{}

/// A piece that was sent again after a rewind is a repeat, and nothing is published for it.
pub fn a_repeat_changes_nothing()
    ensures { (doc : ℕ → Value) → history_of (worked.creates worked.ix_creation) (streams.a_repeat_changes_nothing_script doc) ≡ streams.a_repeat_changes_nothing doc worked.ix_creation }
{}

/// The second of three pieces is lost: the third leaves a gap, and a request that doesn't wait isn't answered.
pub fn a_lost_piece_leaves_a_gap()
    ensures { (doc : ℕ → Value) → history_of (worked.creates worked.ix_creation) (streams.a_lost_piece_leaves_a_gap_script doc) ≡ streams.a_lost_piece_leaves_a_gap doc worked.ix_creation }
{}

/// While an index is built it has an initial stream; when it goes online, the maintenance stream goes back to where its worker is.
pub fn a_merge_rewinds()
    ensures { (doc : ℕ → Value) → history_of (worked.creates worked.ix_creation) (streams.a_merge_rewinds_script doc) ≡ streams.a_merge_rewinds doc worked.ix_creation }
{}

/// A request waits, but for a vector that no mutation reaches; one for what its client wrote is answered.
pub fn a_vector_that_is_never_reached()
    ensures { (doc : ℕ → Value) → history_of (worked.creates worked.ix_creation) (requests.a_vector_that_is_never_reached_script doc) ≡ requests.a_vector_that_is_never_reached doc worked.ix_creation }
{}

/// A request waits for what was accepted before it began, not for another client's mutation after that.
pub fn a_later_mutation_is_not_waited_for()
    ensures { (doc : ℕ → Value) → history_of (worked.creates worked.ix_creation) (requests.a_later_mutation_is_not_waited_for_script doc) ≡ requests.a_later_mutation_is_not_waited_for doc worked.ix_creation }
{}

/// A client that saw a publication isn't answered from an older one; what it wrote counts only where it asks for that.
pub fn what_was_seen_counts()
    ensures { (doc : ℕ → Value) → history_of (worked.creates worked.ix_creation) (requests.what_was_seen_counts_script doc) ≡ requests.what_was_seen_counts doc worked.ix_creation }
{}

/// Four documents go to the four vBuckets; the demand isn't reached in one of them.
pub fn four_vbuckets()
    ensures { (doc : ℕ → Value) → history_of (worked.creates worked.ix_creation) (requests.four_vbuckets_script doc) ≡ requests.four_vbuckets doc worked.ix_creation }
{}

/// An index is dropped while a request on it is open.
pub fn a_drop_under_a_request()
    ensures { history_of (worked.creates_and_drops worked.ix_creation) requests.a_drop_under_a_request_script ≡ requests.a_drop_under_a_request worked.ix_creation }
{}

/// The index is dropped while it is built.
pub fn a_drop_under_a_build()
    ensures { history_of (worked.creates_and_drops worked.ix_creation) requests.a_drop_under_a_build_script ≡ requests.a_drop_under_a_build worked.ix_creation }
{}

/// A client that has nothing left does nothing.
pub fn clients_with_nothing_left()
    ensures { history_of worked.nothing_read streams.clients_with_nothing_left_script ≡ streams.clients_with_nothing_left }
{}

/// Whatever its keys and options are, where there is no reason against it, and they defer its build.
pub fn a_build_is_asked_for()
    ensures { (doc : ℕ → Value) (keys : List Key) (filter options : Option Expr)
        → first_reason (worked.creation_of keys filter options) ≡ None → is_build_deferred (worked.creation_of keys filter options) ≡ true
        → history_of (statements.a_build_is_asked_for_read (worked.creation_of keys filter options)) (statements.a_build_is_asked_for_script doc)
        ≡ statements.a_build_is_asked_for doc (worked.creation_of keys filter options) }
{}

/// Of two creations, where there is no reason against the one, which isn't deferred, and the other has a constant key.
pub fn each_refusal()
    ensures { (keys others : List Key) (filter options : Option Expr)
        → first_reason (worked.creation_of keys filter options) ≡ None → is_build_deferred (worked.creation_of keys filter options) ≡ false
        → first_reason (worked.creation_of others filter options) ≡ Some ConstantKey
        → history_of (statements.each_refusal_read (worked.creation_of keys filter options) (worked.creation_of others filter options)) statements.each_refusal_script
        ≡ statements.each_refusal (worked.creation_of keys filter options) }
{}
