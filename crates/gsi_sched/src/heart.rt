//! Laws of the workers behind a replay: each is the contract of a function that does nothing.
ghost use Rattle.std.specs.Prelude.{◌≡◌, ◌≢◌, ℕ, List, ◌++◌, fold, Some};
ghost use Rattle.std.specs.List.{AllByRecursion};
ghost use Rattle.vb_store.specs.declared.mutation.Mutation.{Mutation};
ghost use Rattle.vb_store.specs.Mutations.{IsNumbered, high_of};
ghost use Rattle.n1ql_value.specs.declared.state.State.TheVariants.{Deferred};
ghost use Rattle.index_def.specs.declared.definition.IndexDef.{IndexDef};
ghost use Rattle.index_def.specs.LiveIndexes.{Live, numbered};
ghost use Rattle.dcp_stream.specs.Streams.{Bounds};
ghost use Rattle.key_eval.specs.declared.projected.Projected.{Projected};
ghost use Rattle.key_eval.specs.Stands.{ProjectedStands};
ghost use Rattle.index_snapshot.specs.Workers.{Worker as RowWorker};
ghost use Rattle.index_snapshot.specs.Stands.{WorkerStands};
ghost use Rattle.scan_history.specs.declared.script.Script.{Script};
ghost use Rattle.scan_history.specs.declared.turn.Turn.{Turn};
ghost use Rattle.scan_history.specs.Events.{Event};
ghost use Rattle.scan_history.specs.Readings.{Read, AreRead};
ghost use Rattle.scan_history.specs.Sound.{IsSound, IsTurn};
ghost use Rattle.gsi_sched.specs.Machine.{Worker, Machine, first_machine, idle, put_at, now_in, with_event, with_worker, sent, unsent};
ghost use Rattle.gsi_sched.specs.ScheduleLines.{given};
ghost use Rattle.gsi_sched.specs.Replay.{after_turn, after_schedule, after_clients, at_the_end};
ghost use Rattle.gsi_sched.specs.Running.{IsRunning};
ghost use Rattle.gsi_sched.specs.Slots.{Slot, numbers_in, first_slot, with_piece, without_piece, after_delivery, numbers_after_delivery, after_deliveries, BringUp, IsKept, begun_slots, given_slots, AreKept, HasSlots};
ghost use Rattle.gsi_sched.specs.inner.Stood.{Stood};

use crate::laws::below;
use index_snapshot::laws as workers;
use vb_store::laws as mutations;

/// What the crates below promise of workers and pieces that stand for mutations.
pub(crate) fn stood()
    ensures { Stood }
{
    pieces_grow();
    workers::growth();
    workers::a_delivery_keeps();
    workers::a_delivery_moves();
    mutations::start();
    mutations::high_counts();
}

/// A projected piece stands for more mutations.
fn pieces_grow()
    ensures { (n : ℕ) (def : IndexDef) (log more : List Mutation) (p : Projected)
        → IsNumbered n (log ++ more) → ProjectedStands n def log p → ProjectedStands n def (log ++ more) p }
{
    key_eval::laws::growth();
}

/// Law of one slot: each kind of step keeps it: its worker and its pieces stand for the mutations, and the machine has their numbers. More mutations
/// carry it over; it begins with nothing; a piece is sent, lost, or delivered; its worker is caught up.
pub fn each_kind_of_step_keeps_a_slot()
    ensures grows { (n : ℕ) (log : List Mutation) (def : IndexDef) (more : List Mutation) (s : Slot) (w : Worker)
        → IsNumbered n (log ++ more) → IsKept n log def s w → IsKept n (log ++ more) def s w }
    ensures begins { (n : ℕ) (log : List Mutation) (def : IndexDef) (i : ℕ) → IsNumbered n log → IsKept n log def (first_slot i def n) (idle n) }
    ensures sends { (n : ℕ) (log : List Mutation) (def : IndexDef) (p : Projected) (b : Bounds) (s : Slot) (w : Worker)
        → ProjectedStands n def log p → numbers_in p ≡ b → IsKept n log def s w → IsKept n log def (with_piece p s) (sent b w) }
    ensures loses { (n : ℕ) (log : List Mutation) (def : IndexDef) (place : ℕ) (s : Slot) (w : Worker)
        → IsKept n log def s w → IsKept n log def (without_piece place s) (unsent place w) }
    ensures delivers { (n : ℕ) (log : List Mutation) (def : IndexDef) (place : ℕ) (s : Slot) (w : Worker)
        → IsKept n log def s w → IsKept n log def (after_delivery place s) (numbers_after_delivery place w) }
    ensures catches_up { (n : ℕ) (log : List Mutation) (def : IndexDef) (v : RowWorker) (s : Slot) (w : Worker)
        → WorkerStands n log v → v.def ≡ def → v.taken.at ≡ high_of n log → IsKept n log def s w
        → IsKept n log def (record s { worker = v }) (record w { at = high_of n log }) }
{
    stood();
}

/// Law of catching up: such pieces bring a worker up to the newest numbers, and there are such pieces.
pub fn pieces_bring_a_worker_up()
    ensures stands { (n : ℕ) (log : List Mutation) (w : RowWorker) (ps : List Projected)
        → WorkerStands n log w → BringUp n log w ps → WorkerStands n log (after_deliveries ps w) }
    ensures own { (n : ℕ) (log : List Mutation) (w : RowWorker) (ps : List Projected)
        → WorkerStands n log w → BringUp n log w ps → (after_deliveries ps w).def ≡ w.def }
    ensures at { (n : ℕ) (log : List Mutation) (w : RowWorker) (ps : List Projected)
        → WorkerStands n log w → BringUp n log w ps → (after_deliveries ps w).taken.at ≡ high_of n log }
    ensures some { (n : ℕ) (log : List Mutation) (w : RowWorker) → WorkerStands n log w → (ps : List Projected) × BringUp n log w ps }
{
    below();
    stood();
}

/// Law of the slots of all indexes: an event carries all of them over, and gives one to an index whose building it begins. A step of one index touches
/// one, and a piece of the maintenance stream is sent to each online index.
pub fn each_step_keeps_the_slots()
    ensures event { (script : Script) (m : Machine) (e : Event) (slots : ℕ → Slot)
        → IsRunning script m → IsRunning script (with_event e m) → AreKept script.vbuckets m slots
        → AreKept script.vbuckets (with_event e m) (begun_slots script.vbuckets (now_in script.vbuckets m) (now_in script.vbuckets (with_event e m)) slots) }
    ensures one { (script : Script) (m : Machine) (i : ℕ) (slot : Slot) (w : Worker) (slots : ℕ → Slot) → AreKept script.vbuckets m slots
        → ((index : Live) → numbered i (now_in script.vbuckets m).live ≡ Some index → index.state ≢ Deferred
        → IsKept script.vbuckets (now_in script.vbuckets m).log index.def slot w)
        → AreKept script.vbuckets (with_worker i w m) (put_at i slot slots) }
    ensures online { (script : Script) (m : Machine) (b : Bounds) (projected : ℕ → Projected) (slots : ℕ → Slot) → AreKept script.vbuckets m slots
        → ((i : ℕ) (index : Live) → numbered i (now_in script.vbuckets m).live ≡ Some index
        → ProjectedStands script.vbuckets index.def (now_in script.vbuckets m).log (projected i))
        → ((i : ℕ) → numbers_in (projected i) ≡ b)
        → AreKept script.vbuckets (given script.vbuckets b m) (given_slots script.vbuckets m projected slots) }
{
    below();
    stood();
}

/// The heart of the replay: after every list of steps the worker of each building or online index stands for the mutations, its vector is the
/// machine's, and each piece in its inbox stands for them. Each step keeps all three.
pub fn workers_stand_through_every_step()
    ensures steps { (read : List ℕ → Read) (script : Script) (turns : List Turn) → AreRead read → IsSound script
        → AllByRecursion (IsTurn script.vbuckets script.clients) turns
        → HasSlots script.vbuckets (fold (after_turn read script) (first_machine script.vbuckets) turns) }
    ensures whole { (read : List ℕ → Read) (script : Script) → AreRead read → IsSound script
        → HasSlots script.vbuckets (at_the_end read script (after_clients read script script.clients (after_schedule read script))) }
    ensures step { (read : List ℕ → Read) (script : Script) (m : Machine) (turn : Turn) → AreRead read → IsSound script
        → IsTurn script.vbuckets script.clients turn → IsRunning script m → HasSlots script.vbuckets m → HasSlots script.vbuckets (after_turn read script m turn) }
    ensures end { (read : List ℕ → Read) (script : Script) (m : Machine) → AreRead read → IsSound script
        → IsRunning script m → HasSlots script.vbuckets m → HasSlots script.vbuckets (at_the_end read script m) }
{
    below();
    stood();
}
