ghost use Rattle.std.specs.Prelude.{◌≡◌, ℕ, ◌+◌, ◌^◌, ◌<◌, ◌≤◌, List, length, IfOk, IfSome, OnErr};
ghost use Rattle.seq_vector.specs.Vectors.{entry, IsCovered, zeros};
ghost use Rattle.vb_store.specs.Mutations.{high_of};
ghost use Rattle.dcp_stream.specs.Pieces.{PieceStands, IsMarked, marker_start, next_piece, after_any, back_to};
ghost use Rattle.dcp_stream.specs.Streams.{unread, marker_end, lowered};

use crate::piece::Piece;
use n1ql_value::Memory;
use seq_vector::laws::meet_is_greatest;
use seq_vector::{Vector, zero};
use std::alloc::Global;
use std::marker::Model;
use vb_store::VbStore;
use vb_store::laws::high_counts;

/// How far a stream has come in each vBucket, and the marker that it is in there.
#[derive(Drop)]
pub struct Position {
    /// The last number that was given.
    at: Vector,
    /// Where the stream stood when its marker began.
    began: Vector,
    /// The last number of its marker.
    ends: Vector,
}

impl Model for Position {
    ghost use Rattle.dcp_stream.specs.Pieces.{Marked, IsMarked};

    ghost Value = { Marked };

    ghost view = { λ p. record { stream = record { at = p.at; ends = p.ends }; began = p.began } };

    ghost invariant = { λ p. IsMarked (record { at = p.at; ends = p.ends }) p.began };
}

impl Position {
    /// The beginning, in each of `n` vBuckets.
    ///
    /// # Errors
    ///
    /// `Memory` where memory ran out.
    pub fn new(alloc: Global, n: u32) -> Result<Position, Memory>
        requires { (0 < n) × (n ≤ 1024) }
        ensures { IfOk result (λ p. p ≡ record { stream = unread n; began = zeros n }) }
    {
        Ok(Position {
            at: zero(alloc, n)?,
            began: zero(alloc, n)?,
            ends: zero(alloc, n)?,
        })
    }

    /// How far the stream has come.
    pub fn at(&self) -> &Vector
        ensures at { result.now ≡ self.now.stream.at }
        ensures marked { IsMarked self.now.stream self.now.began }
    {
        &self.at
    }

    /// The next piece of a vBucket, of at most `most` mutations. `None` exactly where the stream has all of them. Where the
    /// stream stands at the end of its marker, another begins that ends at the newest number.
    ///
    /// # Errors
    ///
    /// `Memory` where memory ran out; the position is then as before.
    pub fn next(&mut self, store: &VbStore, vb: u32, most: u64) -> Result<Option<Piece>, Memory>
        requires vbucket { vb < store.now.vbuckets }
        requires some { 0 < most }
        requires size { length self.old.stream.at ≡ store.now.vbuckets }
        requires reached { IsCovered self.old.stream.ends (high_of store.now.vbuckets store.now.log) }
        ensures piece { IfOk result (λ piece. piece ≡ next_piece store.now.vbuckets store.now.log most vb self.old) }
        ensures stands { IfOk result (λ piece. IfSome piece (PieceStands store.now.vbuckets store.now.log)) }
        ensures moved { IfOk result (λ piece. self.new ≡ after_any piece self.old) }
        ensures reached { IsCovered self.new.stream.ends (high_of store.now.vbuckets store.now.log) }
        ensures err { OnErr result (self.new ≡ self.old) }
    {
        high_counts();
        let high = store.high().get(vb);
        let at = self.at.get(vb);
        if at == high {
            return Ok(None);
        }
        let start = self.start(vb);
        let end = self.end(vb, high);
        let to = at + most.min(end - at);
        let muts = store.slice(vb, at, to)?;
        self.at.set(vb, to);
        self.began.set(vb, start - 1);
        self.ends.set(vb, end);
        Ok(Some(Piece {
            vb,
            start,
            end,
            from: at + 1,
            to,
            muts,
        }))
    }

    /// The first number of the marker that the next piece lies in.
    fn start(&self, vb: u32) -> u64
        requires vbucket { vb < length self.now.stream.at }
        requires more { entry self.now.stream.at vb + 1 < 2 ^ 64 }
        ensures { result ≡ marker_start (entry self.now.stream.at vb) (entry self.now.stream.ends vb) (entry self.now.began vb) }
    {
        let at = self.at.get(vb);
        if at == self.ends.get(vb) {
            at + 1
        } else {
            self.began.get(vb) + 1
        }
    }

    /// The last number of the marker that the next piece lies in, where `high` is the newest number.
    fn end(&self, vb: u32, high: u64) -> u64
        requires { vb < length self.now.stream.at }
        ensures { result ≡ marker_end (entry self.now.stream.at vb) (entry self.now.stream.ends vb) high }
    {
        let end = self.ends.get(vb);
        if self.at.get(vb) == end { high } else { end }
    }

    /// Goes back to a vector, where the stream was ahead of it. What it falls back in begins with a marker of its own.
    pub fn rewind(&mut self, to: &Vector)
        requires { length self.old.stream.at ≡ length to.now }
        ensures back { self.new ≡ back_to to.now self.old }
        ensures size { length self.new.stream.at ≡ length self.old.stream.at }
        ensures within { (high : List ℕ) → IsCovered self.old.stream.ends high → IsCovered self.new.stream.ends high }
    {
        meet_is_greatest();
        lower(&self.at, to, &mut self.began);
        lower(&self.at, to, &mut self.ends);
        self.at.meet_in(to);
    }
}

/// Puts the number to go back to where a position at `at` falls back.
fn lower(at: &Vector, to: &Vector, numbers: &mut Vector)
    requires at { length at.now ≡ length to.now }
    requires numbers { length numbers.old ≡ length to.now }
    ensures { numbers.new ≡ lowered at.now to.now numbers.old }
{
    for vb in 0..to.len() {
        if to.get(vb) < at.get(vb) {
            numbers.set(vb, to.get(vb));
        }
    }
}
