ghost use Rattle.std.specs.Prelude.{◌≡◌, ◌↔◌, ◌<◌, ◌≤◌, length, IfOk, IsTrue};
ghost use Rattle.seq_vector.specs.Vectors.{entry, IsCovered, zeros};
ghost use Rattle.stability.specs.Offers.{offer_of, tracked};

use crate::offer::Offer;
use n1ql_value::Memory;
use seq_vector::{Vector, zero};
use std::alloc::Global;
use std::marker::Model;

/// The last number that was taken in each vBucket, and the greatest end of the markers of what was taken.
#[derive(Drop)]
pub struct Tracker {
    at: Vector,
    ends: Vector,
}

impl Model for Tracker {
    ghost use Rattle.std.specs.Prelude.{◌≡◌, length};
    ghost use Rattle.stability.specs.Offers.{Tracked};

    ghost Value = { Tracked };

    ghost view = { λ t. record { at = t.at; ends = t.ends } };

    ghost invariant = { λ t. length t.ends ≡ length t.at };
}

impl Tracker {
    /// Of `n` vBuckets, in which nothing was taken.
    ///
    /// # Errors
    ///
    /// `Memory` where memory ran out.
    pub fn new(alloc: Global, n: u32) -> Result<Tracker, Memory>
        requires { (0 < n) × (n ≤ 1024) }
        ensures { IfOk result (λ t. t ≡ record { at = zeros n; ends = zeros n }) }
    {
        Ok(Tracker {
            at: zero(alloc, n)?,
            ends: zero(alloc, n)?,
        })
    }

    /// The last number that was taken in each vBucket.
    pub fn vector(&self) -> &Vector
        ensures { result.now ≡ self.now.at }
    {
        &self.at
    }

    /// Whether no marker of what was taken ends above what was taken.
    pub fn at_ends(&self) -> bool
        ensures { IsTrue result ↔ IsCovered self.now.ends self.now.at }
    {
        self.at.covers(&self.ends)
    }

    /// What becomes of the numbers `from` to `to` of a vBucket, if they are offered now.
    pub fn judge(&self, vb: u32, from: u64, to: u64) -> Offer
        requires { vb < length self.now.at }
        ensures { result ≡ offer_of (entry self.now.at vb) from to }
    {
        let have = self.at.get(vb);
        if to <= have {
            Offer::Repeat
        } else if from > have + 1 {
            Offer::Gap { have, from }
        } else {
            Offer::Next { after: have }
        }
    }

    /// Offers the numbers `from` to `to` of a vBucket, of a marker that ends at `end`. They are taken, unless it is a repeat or
    /// leaves a gap.
    pub fn offer(&mut self, vb: u32, from: u64, to: u64, end: u64) -> Offer
        requires vbucket { vb < length self.old.at }
        requires some { from ≤ to }
        requires marker { to ≤ end }
        ensures answer { result ≡ offer_of (entry self.old.at vb) from to }
        ensures moved { self.new ≡ tracked vb to end result self.old }
    {
        let offer = self.judge(vb, from, to);
        if let Offer::Next { .. } = offer {
            self.at.set(vb, to);
            self.ends.set(vb, self.ends.get(vb).max(end));
        }
        offer
    }
}
