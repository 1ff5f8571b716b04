ghost use Rattle.std.specs.Prelude.{◌≡◌, ◌<◌, ◌≤◌, ℕ, List, length, IfOk, OnOk, OnErr};
ghost use Rattle.std.specs.Option.{option_copied_mut};
ghost use Rattle.std.specs.Borrow.{sem};
ghost use Rattle.std.specs.FinMap as map;
ghost use Rattle.seq_vector.specs.Vectors.{meet, IsCovered};
ghost use Rattle.stream_merge.specs.Merging.{begun, without_initial, merged, LendsMaint, LendsInitial};

use dcp_stream::Position;
use n1ql_value::Memory;
use seq_vector::Vector;
use std::alloc::Global;
use std::collections::BTreeMap;
use std::marker::Model;

/// The maintenance stream, and an initial stream for each index that is being built. Contracts see the first, and the others
/// by the numbers of their indexes.
#[derive(Drop)]
pub struct Streams {
    alloc: Global,
    maint: Position,
    initial: BTreeMap<u32, Position>,
}

impl Model for Streams {
    ghost use Rattle.std.specs.FinMap as map;
    ghost use Rattle.stream_merge.specs.Joined.{Joined};

    ghost Value = { Joined };

    ghost use Rattle.std.specs.Coded.{codes, coded_ℕ};
    ghost use Rattle.std.specs.Ordering.{nat_cmp};
    ghost use Rattle.dcp_stream.specs.contracts.position.Position as position;

    ghost coded = { Prim.hlevel (codes, (position.the_row).coded, map.code {R = nat_cmp} coded_ℕ (position.the_row).coded) };

    ghost view = { λ s. record { maint = s.maint; initial = map.from_entries s.initial.entries } };
}

impl Streams {
    /// A maintenance stream of `n` vBuckets that has given nothing, and no initial stream.
    ///
    /// # Errors
    ///
    /// `Memory` where memory ran out.
    pub fn new(alloc: Global, n: u32) -> Result<Streams, Memory>
        requires { (0 < n) × (n ≤ 1024) }
        ensures { IfOk result (λ s. s ≡ record { maint = begun n; initial = map.empty }) }
    {
        Ok(Streams {
            alloc,
            maint: Position::new(alloc, n)?,
            initial: BTreeMap::new(alloc),
        })
    }

    /// The maintenance stream.
    pub fn maint(&mut self) -> &mut Position
        ensures* writes_back { sem 𝓛 (LendsMaint self.entry result) }
        ensures value { result.now ≡ self.old.maint }
    {
        &mut self.maint
    }

    /// Gives an index an initial stream, which has given nothing.
    ///
    /// # Errors
    ///
    /// `Memory` where memory ran out; the streams are then as before.
    pub fn begin(&mut self, number: u32) -> Result<(), Memory>
        ensures ok { OnOk result (self.new ≡ record self.old { initial = map.insert self.old.initial number (begun (length self.old.maint.stream.at)) }) }
        ensures err { OnErr result (self.new ≡ self.old) }
    {
        let position = Position::new(self.alloc, self.maint.at().len())?;
        self.initial.insert(number, position)?;
        Ok(())
    }

    /// The initial stream of an index. `None` exactly where it has none.
    pub fn init(&mut self, number: u32) -> Option<&mut Position>
        ensures* writes_back { sem 𝓛 (LendsInitial self.entry number result) }
        ensures value { option_copied_mut result ≡ map.get self.old.initial number }
    {
        self.initial.get_mut(&number)
    }

    /// Goes on with an index that stands at `at`: the maintenance stream goes back to it, where it was ahead, and the index has
    /// no initial stream any longer.
    pub fn merge(&mut self, number: u32, at: &Vector)
        requires { length self.old.maint.stream.at ≡ length at.now }
        ensures merged { self.new ≡ merged number at.now self.old }
        ensures position { self.new.maint.stream.at ≡ meet self.old.maint.stream.at at.now }
        ensures size { length self.new.maint.stream.at ≡ length self.old.maint.stream.at }
        ensures within { (high : List ℕ) → IsCovered self.old.maint.stream.ends high → IsCovered self.new.maint.stream.ends high }
    {
        self.maint.rewind(at);
        self.end(number);
    }

    /// Ends the initial stream of an index, where it has one.
    pub fn end(&mut self, number: u32)
        ensures { self.new ≡ without_initial number self.old }
    {
        self.initial.remove(&number);
    }
}
