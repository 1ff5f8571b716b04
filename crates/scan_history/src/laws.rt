//! Laws of histories and of statements: each is the contract of a function that does nothing.
ghost use Rattle.std.specs.Prelude.{◌≡◌, ◌≢◌, ◌↔◌, ℕ, ◌+◌, ◌<◌, true, false, List, [], ◌∷◌, ◌++◌, map, length, Some, None, slice_get};
ghost use Rattle.std.specs.List.{AllByRecursion};
ghost use mathlib.Core.List.{IsPrefix};
ghost use Rattle.seq_vector.specs.Vectors.{IsCovered};
ghost use Rattle.vb_store.specs.Mutations.{high_of};
ghost use Rattle.n1ql_value.specs.declared.state.State.TheVariants.{Deferred};
ghost use Rattle.index_def.specs.declared.definition.IndexDef.{IndexDef};
ghost use Rattle.index_def.specs.LiveIndexes.{Live, numbered};
ghost use Rattle.n1ql_value.specs.declared.range.Range.{Range};
ghost use Rattle.scan_coord.specs.declared.demand.Demand.TheVariants.{AtPlus};
ghost use Rattle.scan_history.specs.declared.ask.Ask.{Ask};
ghost use Rattle.scan_history.specs.declared.command.Command.{Command};
ghost use Rattle.scan_history.specs.declared.command.Command.TheVariants.{Scan};
ghost use Rattle.scan_history.specs.declared.script.Script.{Script};
ghost use Rattle.scan_history.specs.Answers.{answers_of};
ghost use Rattle.scan_history.specs.Consistent.{IsConsistent};
ghost use Rattle.scan_history.specs.Definitions.{Defines};
ghost use Rattle.scan_history.specs.Events.{Event, not_yet, client_of, party_of};
ghost use Rattle.scan_history.specs.First.{commands_of, command_at, first_action};
ghost use Rattle.scan_history.specs.Fold.{State, nothing, started, step, own_step, is_of, state_from, state_after};
ghost use Rattle.scan_history.specs.Legal.{MayFollow, IsLegal, IsFinished};
ghost use Rattle.scan_history.specs.Marks.{mark_of, publication_of, IsSizedPublication};
ghost use Rattle.scan_history.specs.Told.{told_script, told_history};
ghost use Rattle.scan_history.specs.inner.Known.{Known};
ghost use Rattle.scan_history.specs.NextEvent.{next_event};
ghost use Rattle.scan_history.specs.Readings.{Read, IsRead, AreRead};
ghost use Rattle.scan_history.specs.Requests.{IsAsked, IsWithinCommands};
ghost use Rattle.scan_history.specs.Served.{AreServed};
ghost use Rattle.scan_history.specs.Sound.{IsSound, IsWithinBounds};

use n1ql_parse::laws as parse;
use seq_vector::laws as vectors;
use vb_store::laws as mutations;

/// What the crates below promise of vectors and of the newest numbers.
fn below()
    ensures { Known }
{
    vectors::cover_is_order();
    vectors::join_is_least();
    mutations::high_counts();
    mutations::append_changes();
}

/// Law of texts: one function tells of each text what it is, and there is no other.
pub fn texts_are_read_in_one_way()
    ensures some { (read : List ℕ → Read) × AreRead read }
    ensures one { (read other : List ℕ → Read) → AreRead read → AreRead other → (text : List ℕ) → read text ≡ other text }
    ensures told { (read : List ℕ → Read) → AreRead read → (text : List ℕ) (is : Read) → IsRead text is → read text ≡ is }
{
    parse::one_ddl();
    parse::one_ddl_fault();
    parse::ddl_or_fault();
}

/// Law of other clients: events that are no part of a client's commands leave that client's part. Those that are, are the ones that name its party.
pub fn other_clients()
    ensures one { (n : ℕ) (s : State) (e : Event) (c : ℕ) → is_of c e ≡ false → (step n s e).client c ≡ s.client c }
    ensures all { (n : ℕ) (s : State) (events : List Event) (c : ℕ)
        → AllByRecursion (λ e. is_of c e ≡ false) events → (state_from n s events).client c ≡ s.client c }
    ensures party { (e : Event) (c : ℕ) → (is_of c e ≡ true) ↔ (party_of e ≡ Some (c + 1)) }
{}

/// Law of a client's own events: such an event changes the client's part as `own_step` says.
pub fn own_part()
    ensures { (n : ℕ) (s : State) (e : Event) (c : ℕ)
        → is_of c e ≡ true → (step n s e).client c ≡ own_step (high_of n s.log) (s.client c) e }
{}

/// Law of one more event: the state goes on by a step, and the history is legal where the others are and the event may follow them.
pub fn one_more()
    ensures state { (n : ℕ) (events : List Event) (e : Event) → state_after n (events ++ e ∷ []) ≡ step n (state_after n events) e }
    ensures legal { (script : Script) (events : List Event) (e : Event) → IsLegal script (events ++ e ∷ [])
        ↔ (IsLegal script events × ((read : List ℕ → Read) → AreRead read → MayFollow read script (state_after script.vbuckets events) e)) }
{}

/// Law of the beginning: a history leaves what the events at its end make of the state that its beginning leaves, and where it is legal, its
/// beginning is.
pub fn beginnings()
    ensures state { (n : ℕ) (events more : List Event) → state_after n (events ++ more) ≡ state_from n (state_after n events) more }
    ensures legal { (script : Script) (events more : List Event) → IsLegal script (events ++ more) → IsLegal script events }
{}

/// Law of the first action: where nothing is open for a client, the first action of its next command may follow.
pub fn a_first_action_may_follow()
    ensures { (read : List ℕ → Read) (script : Script) (s : State) (c : ℕ) (e : Event)
        → (s.client c).opened ≡ nothing → first_action read script s c ≡ Some e → MayFollow read script s e }
{}

/// Law of the next event: an event of a client that may follow is the client's next event. So no two may.
pub fn one_next_event()
    ensures next { (read : List ℕ → Read) (script : Script) (s : State) (e : Event) (c : ℕ)
        → client_of e ≡ Some c → MayFollow read script s e → next_event read script s c ≡ Some e }
    ensures one { (read : List ℕ → Read) (script : Script) (s : State) (e other : Event) (c : ℕ)
        → client_of e ≡ Some c → client_of other ≡ Some c
        → MayFollow read script s e → MayFollow read script s other → e ≡ other }
{
    vectors::tests_tell_of_each_vbucket();
}

/// Law of marks: among the events that may follow one state, the client tells which one it is, or the index and the vector of a publication. So
/// legal histories whose events have the same marks are the same.
pub fn marks_tell_events()
    ensures event { (read : List ℕ → Read) (script : Script) (s : State) (e other : Event)
        → mark_of e ≡ mark_of other → MayFollow read script s e → MayFollow read script s other → e ≡ other }
    ensures history { (script : Script) (events others : List Event) → IsLegal script events → IsLegal script others
        → map mark_of events ≡ map mark_of others → events ≡ others }
    ensures sizes { (script : Script) (events : List Event)
        → IsLegal script events → AllByRecursion (IsSizedPublication script.vbuckets) events }
{
    texts_are_read_in_one_way();
    one_next_event();
    mutations::high_counts();
}

/// Law of what is made: mutations and definitions stay over a longer history, each at its place, also the definition of an index that is dropped.
pub fn what_is_made_stays()
    ensures mutations { (n : ℕ) (events more : List Event) → IsPrefix (state_after n events).log (state_after n (events ++ more)).log }
    ensures definitions { (n : ℕ) (events more : List Event) → IsPrefix (state_after n events).defs (state_after n (events ++ more)).defs }
    ensures definition { (n : ℕ) (events more : List Event) (i : ℕ) (def : IndexDef)
        → slice_get (state_after n events).defs i ≡ Some def → slice_get (state_after n (events ++ more)).defs i ≡ Some def }
{}

/// Law of the state that a legal history leaves: its mutations are numbered, and nothing in it is above them.
pub fn a_legal_history_is_consistent()
    ensures { (script : Script) (events : List Event)
        → IsLegal script events → IsConsistent script.vbuckets (state_after script.vbuckets events) }
{
    texts_are_read_in_one_way();
    below();
}

/// Law of the definitions of a legal history: some text defines each, by the grammar of statements and the meaning of definitions.
pub fn each_index_was_defined()
    ensures { (script : Script) (events : List Event)
        → IsLegal script events → AllByRecursion (λ def. (text : List ℕ) × Defines text def) (state_after script.vbuckets events).defs }
{
    texts_are_read_in_one_way();
    below();
}

/// Law of an index over a longer legal history: once it isn't deferred it won't be, once it is dropped it won't be live, and its publications
/// only go forth.
pub fn an_index_goes_forth()
    ensures served { (script : Script) (events more : List Event) (i : ℕ) (index later : Live) → IsLegal script (events ++ more)
        → numbered i (state_after script.vbuckets events).live ≡ Some index → index.state ≢ Deferred
        → numbered i (state_after script.vbuckets (events ++ more)).live ≡ Some later → later.state ≢ Deferred }
    ensures dropped { (script : Script) (events more : List Event) (i : ℕ) → IsLegal script (events ++ more)
        → i < length (state_after script.vbuckets events).defs → numbered i (state_after script.vbuckets events).live ≡ None
        → numbered i (state_after script.vbuckets (events ++ more)).live ≡ None }
    ensures published { (script : Script) (events more : List Event) (i : ℕ) → IsLegal script (events ++ more)
        → IsCovered ((state_after script.vbuckets events).published i) ((state_after script.vbuckets (events ++ more)).published i) }
{
    texts_are_read_in_one_way();
    below();
}

/// Law of commands: a client closes no more than it has, and what is open for it is one of them.
pub fn commands_come_in_order()
    ensures { (script : Script) (events : List Event) (c : ℕ)
        → IsLegal script events → IsWithinCommands (length (commands_of script c)) ((state_after script.vbuckets events).client c) }
{
    texts_are_read_in_one_way();
    below();
}

/// Law of requests: one that is open is the client's next command, with what it asked for when it began. In a sound script its demand has an entry for
/// each vBucket, as each command is within its bounds.
pub fn an_open_request_was_asked_for()
    ensures asked { (script : Script) (events : List Event) (c i : ℕ) (demand since : List ℕ) → IsLegal script events
        → ((state_after script.vbuckets events).client c).opened ≡ started i demand since
        → IsAsked script c ((state_after script.vbuckets events).client c) demand since }
    ensures size { (script : Script) (events : List Event) (c i : ℕ) (demand since : List ℕ) → IsSound script → IsLegal script events
        → ((state_after script.vbuckets events).client c).opened ≡ started i demand since → length demand ≡ script.vbuckets }
    ensures within { (script : Script) (c k : ℕ) (command : Command)
        → IsSound script → command_at script c k ≡ Some command → IsWithinBounds script.vbuckets command }
{
    texts_are_read_in_one_way();
    below();
}

/// Law of requests that wait: such a request is answered, or dropped, unless it gives a vector itself, which may be one that is never reached.
pub fn a_request_that_waits_is_answered()
    ensures { (script : Script) (events : List Event) (c k : ℕ) (have index : List ℕ) (spans : List (List Range)) (ask : Ask)
        → IsLegal script (events ++ not_yet c k have ∷ []) → command_at script c k ≡ Some (Scan index spans ask) → ask.wait ≡ true
        → (at : List ℕ) × (ask.demand ≡ AtPlus at) }
{
    texts_are_read_in_one_way();
    below();
}

/// Law of requests that are served: an answer is at the vector of the newest publication of its index, which covers what the request asks for and all
/// that its client has seen; a request isn't answered yet only where the newest publication doesn't cover them.
pub fn requests_are_served()
    ensures { (script : Script) (events : List Event) → IsSound script → IsLegal script events → AreServed script events }
{
    texts_are_read_in_one_way();
    below();
    vectors::join_is_least();
}

/// Law of answers: those of a legal history stay as they are when it grows.
pub fn answers_stay()
    ensures { (script : Script) (events more : List Event)
        → IsLegal script (events ++ more) → IsPrefix (answers_of script events) (answers_of script (events ++ more)) }
{
    texts_are_read_in_one_way();
    below();
    mutations::growth();
}

/// The history that docs/histories.md tells is legal and finished.
pub fn the_told_history_is_legal_and_finished()
    ensures legal { IsLegal told_script told_history }
    ensures finished { IsFinished told_script (state_after 1 told_history) }
{
    texts_are_read_in_one_way();
}
