//! What passes do at the lock.
ghost use Rattle.std.specs.Prelude.{◌≡◌, ℕ, ◌+◌, ◌<◌, true, false, [], ◌∷◌, IfOk, None, Some};
ghost use mathlib.Core.List.{IsPrefix};
ghost use Rattle.history_lock.specs.Events.{longer, GrewBy, GrewByOthers};
ghost use Rattle.history_lock.specs.Rule.{in_turn, out_of_turn, Meets};
ghost use Rattle.history_lock.specs.Passes.{id_of, lock_of, party_of, made_from, seen_by, HoldsTurn, HoldsNoTurn, list_in, IsSameParty, lock_of_note, told_by};

use crate::chronicle::Chronicle;
use crate::lock::HistLock;
use crate::note::Note;
use crate::pass::Pass;
use crate::plays::{Give, Learn, Look, Mark, NewPass, Take, Tell};
use crate::view::Place;
use atomic_table::Table;
use n1ql_value::Memory;
use std::alloc::Global;
use std::sync::Wait;

// Words of the table.
const TURN: usize = 0;

const COUNT: usize = 1;

const FINISHED: usize = 2;

// The table's one slot.
const STATE: usize = 0;

// A sleep compares 32 bits of a word.
const LOW_BITS: u64 = 0xffff_ffff;

impl<S: Chronicle + Drop> HistLock<S> {
    /// A lock of a state with no events, and its first pass, that of party 0.
    ///
    /// # Errors
    ///
    /// `Memory` where there is no room for the table.
    pub fn new(alloc: Global, state: S) -> Result<(HistLock<S>, Pass<S>), Memory>
        requires { S.events state ≡ [] }
        ensures { IfOk result (λ made. (lock_of made.1 ≡ id_of made.0) × HoldsNoTurn made.1 × (party_of made.1 ≡ 0) × (made_from made.1 ≡ 0) × (seen_by made.1 ≡ [])) }
    {
        let mut slots = Vec::with_capacity(alloc, 1)?;
        slots.push(Some(state))?;
        let Ok((table, seat)) = Table::new(alloc, &[0, 0, 0], slots, &()) else {
            return Err(Memory);
        };
        let first = Pass {
            seat,
            party: 0,
            made: 0,
            count: 0,
            state: None,
        };
        Ok((HistLock { table }, first))
    }

    /// A pass of the next party, which has seen what the first pass has seen. It takes no memory.
    pub fn new_pass(&self, from: &mut Pass<S>) -> Pass<S>
        requires lock { lock_of from.old ≡ id_of self.now }
        requires idle { HoldsNoTurn from.old }
        requires first { party_of from.old ≡ 0 }
        requires room { made_from from.old < 4294967295 }
        ensures from { HoldsNoTurn from.new × (lock_of from.new ≡ lock_of from.old) × (party_of from.new ≡ 0) × (made_from from.new ≡ made_from from.old + 1) × (seen_by from.new ≡ seen_by from.old) }
        ensures pass { HoldsNoTurn result × (lock_of result ≡ lock_of from.old) × (party_of result ≡ made_from from.old + 1) × (made_from result ≡ 0) × (seen_by result ≡ seen_by from.old) }
    {
        let seat = self.table.shared.split_seat::<NewPass>(&mut from.seat);
        from.made += 1;
        Pass {
            seat,
            party: from.made,
            made: 0,
            count: from.count,
            state: None,
        }
    }

    /// A note of what the pass has seen. It takes no memory.
    pub fn note(&self, from: &mut Pass<S>) -> Note<S>
        requires lock { lock_of from.old ≡ id_of self.now }
        requires idle { HoldsNoTurn from.old }
        ensures from { HoldsNoTurn from.new × IsSameParty from.old from.new × (seen_by from.new ≡ seen_by from.old) }
        ensures note { (lock_of_note result ≡ lock_of from.old) × (told_by result ≡ seen_by from.old) }
    {
        let seat = self.table.shared.split_seat::<Tell>(&mut from.seat);
        Note {
            seat,
            count: from.count,
        }
    }

    /// The pass has then seen the longer of its list and the note's, of which one begins the other. It takes no memory.
    pub fn learn(&self, pass: &mut Pass<S>, note: Note<S>)
        requires lock { lock_of pass.old ≡ id_of self.now }
        requires note { lock_of_note note ≡ id_of self.now }
        requires idle { HoldsNoTurn pass.old }
        ensures pass { HoldsNoTurn pass.new × IsSameParty pass.old pass.new }
        ensures longer { seen_by pass.new ≡ longer (seen_by pass.old) (told_by note) }
        ensures begins { IsPrefix (seen_by pass.old) (seen_by pass.new) × IsPrefix (told_by note) (seen_by pass.new) }
    {
        let Note { seat, count } = note;
        let shared = &self.table.shared;
        shared.join_seat::<Learn>(&mut pass.seat, seat);
        shared.load::<Look>(&mut pass.seat, TURN);
        pass.count = pass.count.max(count);
    }

    // Tries until the turn is taken. It sleeps while another pass holds it.
    fn take_turn<R: Wait>(&self, rt: &R, seat: &mut Place<S>)
        requires lock { seat.old.table_id ≡ id_of self.now }
        requires idle { (seat.old.me.0.turn ≡ false) × (seat.old.me.1 ≡ []) }
        ensures seat { (seat.new.table_id ≡ seat.old.table_id) × (seat.new.id ≡ seat.old.id) }
        ensures turn { (x : S) × (seat.new.me ≡ (in_turn seat.old.me.0 (S.events x), (0, Some x) ∷ [])) × Meets S.party seat.old.me.0 (S.events x) }
    {
        let shared = &self.table.shared;
        for _ in rt.forever() {
            if shared.compare_exchange::<Take>(seat, TURN, 0, 1) == 0 {
                return;
            }
            shared.park(rt, TURN, 1);
        }
        unreachable!()
    }

    // Stores the number of events where it rose, and says whether it did.
    fn mark_count(&self, seat: &mut Place<S>, before: u64, count: u64) -> bool
        requires { seat.old.table_id ≡ id_of self.now }
        ensures { (seat.new.table_id ≡ seat.old.table_id) × (seat.new.id ≡ seat.old.id) × (seat.new.me ≡ seat.old.me) }
    {
        if count <= before {
            return false;
        }
        self.table.shared.store::<Mark>(seat, COUNT, count);
        true
    }

    // Puts the state back, gives the turn, and wakes one who waits for it.
    fn give_turn(&self, seat: &mut Place<S>, state: S)
        requires lock { seat.old.table_id ≡ id_of self.now }
        requires turn { (seat.old.me.0.turn ≡ true) × (seat.old.me.1 ≡ (0, None) ∷ []) }
        requires grew { (p : ℕ) × (seat.old.me.0.party ≡ Some p) × GrewBy S.party p seat.old.me.0.seen (S.events state) }
        ensures seat { (seat.new.table_id ≡ seat.old.table_id) × (seat.new.id ≡ seat.old.id) }
        ensures given { seat.new.me ≡ (out_of_turn seat.old.me.0 (S.events state), []) }
    {
        let shared = &self.table.shared;
        drop(shared.exchange(seat, STATE, Some(state)));
        shared.store::<Give>(seat, TURN, 0);
        shared.wake_one(TURN);
    }

    /// Waits for the turn and takes it. The pass then has the state, and has seen its whole list.
    pub fn enter<R: Wait>(&self, rt: &R, pass: &mut Pass<S>)
        requires lock { lock_of pass.old ≡ id_of self.now }
        requires idle { HoldsNoTurn pass.old }
        ensures pass { HoldsTurn pass.new × IsSameParty pass.old pass.new }
        ensures whole { list_in S.events pass.new ≡ seen_by pass.new }
        ensures grew { GrewByOthers S.party (party_of pass.old) (seen_by pass.old) (seen_by pass.new) }
    {
        self.take_turn(rt, &mut pass.seat);
        let state = self
            .table
            .shared
            .exchange(&mut pass.seat, STATE, None)
            .unwrap();
        pass.count = state.count();
        pass.state = Some(state);
    }

    /// Gives the state and the turn back, and wakes who waits for the turn and, where events were added, for a longer list. It takes no memory.
    pub fn leave(&self, pass: &mut Pass<S>)
        requires lock { lock_of pass.old ≡ id_of self.now }
        requires turn { HoldsTurn pass.old }
        requires grew { GrewBy S.party (party_of pass.old) (seen_by pass.old) (list_in S.events pass.old) }
        ensures pass { HoldsNoTurn pass.new × IsSameParty pass.old pass.new }
        ensures whole { seen_by pass.new ≡ list_in S.events pass.old }
        ensures grew { GrewBy S.party (party_of pass.old) (seen_by pass.old) (seen_by pass.new) }
    {
        let Some(state) = pass.state.take() else {
            unreachable!()
        };
        let count = state.count();
        let added = self.mark_count(&mut pass.seat, pass.count, count);
        self.give_turn(&mut pass.seat, state);
        pass.count = count;
        if added {
            self.table.shared.wake_all(COUNT);
        }
    }

    /// Sleeps until the list is longer than what the pass has seen, or `finish` was called.
    pub fn wait_longer<R: Wait>(&self, rt: &R, pass: &Pass<S>)
        requires lock { lock_of pass.now ≡ id_of self.now }
        requires idle { HoldsNoTurn pass.now }
    {
        let shared = &self.table.shared;
        for _ in rt.forever() {
            let count = shared.peek(COUNT);
            if count > pass.count || shared.peek(FINISHED) == 1 {
                return;
            }
            shared.park(rt, COUNT, (count & LOW_BITS) as u32);
        }
        unreachable!()
    }

    /// Ends every `wait_longer`, from now on too.
    pub fn finish(&self, pass: &mut Pass<S>)
        requires lock { lock_of pass.old ≡ id_of self.now }
        requires idle { HoldsNoTurn pass.old }
        ensures { HoldsNoTurn pass.new × IsSameParty pass.old pass.new × (seen_by pass.new ≡ seen_by pass.old) }
    {
        let shared = &self.table.shared;
        shared.store::<Mark>(&mut pass.seat, FINISHED, 1);
        // Who has looked at that word before and is about to sleep finds this one changed.
        shared.store::<Mark>(&mut pass.seat, COUNT, u64::MAX);
        shared.wake_all(COUNT);
    }

    /// Waits for the turn, and ends the lock. It gives the state.
    pub fn close<R: Wait>(self, rt: &R, mut first: Pass<S>) -> S
        requires lock { lock_of first ≡ id_of self }
        requires idle { HoldsNoTurn first }
        ensures grew { GrewByOthers S.party (party_of first) (seen_by first) (S.events result) }
    {
        self.enter(rt, &mut first);
        first.state.take().unwrap()
    }
}
