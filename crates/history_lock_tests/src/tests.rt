ghost use Rattle.std.specs.Prelude.{◌≡◌};
ghost use mathlib.Core.List.{IsPrefix};
ghost use Rattle.history_lock.specs.Passes.{id_of, lock_of, party_of, seen_by, HoldsNoTurn, IsSameParty, lock_of_note, told_by};

use crate::log::Log;
use history_lock::{HistLock, Note, Pass, crosses_threads};
use std::sync::Wait;
use std::test::Fail;
use std::thread::join;

const EACH: u32 = 100;

/// Adds an event of the pass's party in a turn. It says whether there was memory.
fn add_one<R: Wait>(rt: &R, lock: &HistLock<Log>, pass: &mut Pass<Log>, party: u32) -> bool
    requires { (lock_of pass.old ≡ id_of lock.now) × HoldsNoTurn pass.old × (party_of pass.old ≡ party) }
    ensures pass { HoldsNoTurn pass.new × IsSameParty pass.old pass.new }
    ensures grew { IsPrefix (seen_by pass.old) (seen_by pass.new) }
{
    lock.enter(rt, pass);
    let added = pass.state_mut().add(party);
    lock.leave(pass);
    added
}

/// Adds events in turns of one event. It gives how many were added.
fn add_events<R: Wait>(rt: &R, lock: &HistLock<Log>, mut pass: Pass<Log>, party: u32) -> u32
    requires { (lock_of pass ≡ id_of lock.now) × HoldsNoTurn pass × (party_of pass ≡ party) }
{
    let mut added = 0;
    for _ in 0..EACH {
        if add_one(rt, lock, &mut pass, party) {
            added += 1;
        }
    }
    added
}

/// What one pass has seen goes to another by a note.
fn tell(lock: &HistLock<Log>, from: &mut Pass<Log>, to: &mut Pass<Log>)
    requires from { (lock_of from.old ≡ id_of lock.now) × HoldsNoTurn from.old }
    requires to { (lock_of to.old ≡ id_of lock.now) × HoldsNoTurn to.old }
    ensures from { HoldsNoTurn from.new × IsSameParty from.old from.new }
    ensures to { HoldsNoTurn to.new × IsSameParty to.old to.new }
    ensures told { IsPrefix (seen_by from.old) (seen_by to.new) }
    ensures kept { IsPrefix (seen_by to.old) (seen_by to.new) }
{
    let note = lock.note(from);
    lock.learn(to, note);
}

/// How many events a pass finds in a turn in which it adds none.
fn look<R: Wait>(rt: &R, lock: &HistLock<Log>, pass: &mut Pass<Log>) -> usize
    requires { (lock_of pass.old ≡ id_of lock.now) × HoldsNoTurn pass.old }
    ensures { HoldsNoTurn pass.new × IsSameParty pass.old pass.new }
{
    lock.enter(rt, pass);
    let found = pass.state().parties.len();
    lock.leave(pass);
    found
}

#[test]
fn two_threads_add_in_turns(rt: HostRuntime) -> Result<(), Fail> {
    crosses_threads::<Log>();
    let (lock, mut first) = HistLock::new(rt.alloc(), Log::new(rt.alloc()))?;
    let one = lock.new_pass(&mut first);
    let two = lock.new_pass(&mut first);
    let (by_one, by_two) = join(
        &rt,
        || add_events(&rt, &lock, one, 1),
        || add_events(&rt, &lock, two, 2),
    );
    let log = lock.close(&rt, first);
    assert_eq!(rt; (by_one, by_two), (EACH, EACH));
    assert_eq!(rt;
        (log.parties.len(), log.count_of(1), log.count_of(2)),
        (200, 100, 100)
    );
    Ok(())
}

#[test]
fn a_note_is_learnt_and_a_longer_list_is_kept(rt: HostRuntime) -> Result<(), Fail> {
    let (lock, mut first) = HistLock::new(rt.alloc(), Log::new(rt.alloc()))?;
    let mut one = lock.new_pass(&mut first);
    let mut two = lock.new_pass(&mut first);
    let early = lock.note(&mut one);
    assert!(rt; add_one(&rt, &lock, &mut two, 2));
    lock.wait_longer(&rt, &one);
    tell(&lock, &mut two, &mut one);
    lock.learn(&mut two, early);
    assert_eq!(rt; look(&rt, &lock, &mut one), 1);
    lock.finish(&mut first);
    lock.wait_longer(&rt, &two);
    let log = lock.close(&rt, first);
    assert_eq!(rt; log.parties.as_slice(), [2].as_slice());
    Ok(())
}
