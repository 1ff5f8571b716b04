//! Laws of the replay: each is the contract of a function that does nothing.
ghost use Rattle.std.specs.Prelude.{◌≡◌, ℕ, List, Some};
ghost use Rattle.std.specs.List.{AllByRecursion};
ghost use Rattle.scan_history.specs.declared.script.Script.{Script};
ghost use Rattle.scan_history.specs.declared.turn.Turn.{Turn};
ghost use Rattle.scan_history.specs.Events.{Event};
ghost use Rattle.scan_history.specs.Fold.{state_after};
ghost use Rattle.scan_history.specs.Legal.{MayFollow, IsLegal, IsFinished};
ghost use Rattle.scan_history.specs.NextEvent.{next_event};
ghost use Rattle.scan_history.specs.Readings.{Read, AreRead};
ghost use Rattle.scan_history.specs.Sound.{IsSound, IsTurn};
ghost use Rattle.gsi_sched.specs.Machine.{Machine, first_machine, now_in, high_in, published_in};
ghost use Rattle.gsi_sched.specs.ClientActions.{awaited_by, catch_up, caught_up, act};
ghost use Rattle.gsi_sched.specs.Replay.{after_turn, at_the_end, history_of};
ghost use Rattle.gsi_sched.specs.Running.{IsWorking, IsRunning};
ghost use Rattle.gsi_sched.specs.inner.Below.{Below};

use dcp_stream::laws as streams;
use scan_history::laws as histories;
use seq_vector::laws as vectors;
use vb_store::laws as mutations;

/// What the crates below promise of vectors, streams and histories.
pub(crate) fn below()
    ensures { Below }
{
    vectors::cover_is_order();
    vectors::tests_tell_of_each_vbucket();
    mutations::high_counts();
    streams::next_numbers();
    streams::going_back();
    histories::texts_are_read_in_one_way();
    histories::one_more();
    histories::a_first_action_may_follow();
    histories::what_is_made_stays();
    histories::a_legal_history_is_consistent();
    histories::an_index_goes_forth();
    histories::commands_come_in_order();
    histories::an_open_request_was_asked_for();
}

/// Law of the replay: it is a function of the script alone, since texts are read in one way.
pub fn a_script_has_one_replay()
    ensures { (read other : List ℕ → Read) (script : Script) → AreRead read → AreRead other → history_of read script ≡ history_of other script }
{
    below();
}

/// Law of steps: the machine runs at first, and each line of the schedule, each action of a client and the end keep it running: its history is
/// legal, and its streams and workers fit it.
pub fn each_step_keeps_the_machine_running()
    ensures first { (script : Script) → IsRunning script (first_machine script.vbuckets) }
    ensures turn { (read : List ℕ → Read) (script : Script) (m : Machine) (turn : Turn)
        → AreRead read → IsSound script → IsTurn script.vbuckets script.clients turn → IsRunning script m → IsRunning script (after_turn read script m turn) }
    ensures action { (read : List ℕ → Read) (script : Script) (m : Machine) (c : ℕ)
        → AreRead read → IsSound script → IsRunning script m → IsRunning script (act read script c m) }
    ensures end { (read : List ℕ → Read) (script : Script) (m : Machine)
        → AreRead read → IsSound script → IsRunning script m → IsRunning script (at_the_end read script m) }
{
    below();
}

/// Law of an action: each index that a client's command waits for can be caught up, which publishes it at the newest numbers; and then the client's next
/// event may follow.
pub fn an_action_may_follow()
    ensures awaited { (read : List ℕ → Read) (script : Script) (m : Machine) (c : ℕ)
        → IsRunning script m → AllByRecursion (IsWorking (now_in script.vbuckets m).live) (awaited_by read script c m) }
    ensures caught_up { (read : List ℕ → Read) (script : Script) (m : Machine) (i : ℕ) → AreRead read
        → IsRunning script m → IsWorking (now_in script.vbuckets m).live i → IsRunning script (catch_up script.vbuckets m i) }
    ensures published { (read : List ℕ → Read) (script : Script) (m : Machine) (i : ℕ) → AreRead read
        → IsRunning script m → IsWorking (now_in script.vbuckets m).live i → published_in script.vbuckets i (catch_up script.vbuckets m i) ≡ high_in script.vbuckets m }
    ensures next { (read : List ℕ → Read) (script : Script) (m : Machine) (c : ℕ) (e : Event) → AreRead read → IsSound script → IsRunning script m
        → next_event read script (now_in script.vbuckets (caught_up script.vbuckets (awaited_by read script c m) m)) c ≡ Some e
        → MayFollow read script (now_in script.vbuckets (caught_up script.vbuckets (awaited_by read script c m) m)) e }
{
    below();
}

/// Law of the replay: its history is legal.
pub fn the_replay_is_legal()
    ensures { (read : List ℕ → Read) (script : Script) → AreRead read → IsSound script → IsLegal script (history_of read script) }
{
    below();
}

/// Law of the replay: its history is finished.
pub fn the_replay_is_finished()
    ensures { (read : List ℕ → Read) (script : Script)
        → AreRead read → IsSound script → IsFinished script (state_after script.vbuckets (history_of read script)) }
{
    below();
}
