ghost use Rattle.std.specs.Prelude.{◌≡◌, ◌<◌, ◌≤◌, [], ◌++◌, length, take, drop, IfOk, OnOk};
ghost use Rattle.std.specs.List.{AllByRecursion, flat_map, range_with_len};
ghost use Rattle.seq_vector.specs.Vectors.{entry};
ghost use Rattle.dcp_stream.specs.Pieces.{PieceStands};
ghost use Rattle.gsi_hub.specs.Past.{state_of, high_in};
ghost use Rattle.gsi_hub.specs.Pieces.{piece_between, piece_above, pieces_above};

use crate::Pieces;
use crate::hub::Hub;
use crate::known::known;
use dcp_stream::Piece;
use n1ql_value::Memory;
use seq_vector::Vector;
use std::alloc::Global;

impl Hub {
    /// What was accepted above a vector: for each vBucket with newer numbers one piece of all of them.
    ///
    /// # Errors
    ///
    /// `Memory` where memory ran out.
    pub fn take_pieces(&self, alloc: Global, after: &Vector) -> Result<Pieces, Memory>
        requires { length after.now ≡ self.now.script.vbuckets }
        ensures pieces { IfOk result (λ pieces. pieces ≡ pieces_above self.now.script.vbuckets (state_of self.now).log after.now) }
        ensures stands { IfOk result (AllByRecursion (PieceStands self.now.script.vbuckets (state_of self.now).log)) }
    {
        known();
        self.told();
        let pieces = self.all_above(alloc, after)?;
        Ok(pieces)
    }

    /// The pieces of all vBuckets.
    fn all_above(&self, alloc: Global, after: &Vector) -> Result<Pieces, Memory>
        requires { length after.now ≡ self.now.script.vbuckets }
        ensures { IfOk result (λ pieces. pieces ≡ pieces_above self.now.script.vbuckets (state_of self.now).log after.now) }
    {
        let mut pieces = Pieces::new(alloc);
        for vb in 0..after.len() {
            self.take_above(&mut pieces, after, vb)?;
        }
        Ok(pieces)
    }

    /// Adds the piece of a vBucket, where there are newer numbers.
    fn take_above(&self, pieces: &mut Pieces, after: &Vector, vb: u32) -> Result<(), Memory>
        requires vbucket { vb < self.now.script.vbuckets }
        requires size { length after.now ≡ self.now.script.vbuckets }
        ensures { OnOk result (pieces.new ≡ pieces.old ++ piece_above (state_of self.now).log (high_in self.now) after.now vb) }
    {
        let (at, high) = (after.get(vb), self.high().get(vb));
        if at < high {
            pieces.push(self.piece(vb, at, high)?)?;
        }
        Ok(())
    }

    /// A vBucket's numbers above one, up to another.
    fn piece(&self, vb: u32, after: u64, upto: u64) -> Result<Piece, Memory>
        requires vbucket { vb < self.now.script.vbuckets }
        requires some { after < upto }
        requires reached { upto ≤ entry (high_in self.now) vb }
        ensures { IfOk result (λ piece. piece ≡ piece_between (state_of self.now).log vb after upto) }
    {
        let muts = self.store.slice(vb, after, upto)?;
        let from = after + 1;
        Ok(Piece {
            vb,
            start: from,
            end: upto,
            from,
            to: upto,
            muts,
        })
    }
}
