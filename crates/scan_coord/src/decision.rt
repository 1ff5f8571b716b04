ghost use Rattle.std.specs.Prelude.{◌≡◌, ◌↔◌, length};
ghost use Rattle.seq_vector.specs.Vectors.{IsCovered};
ghost use Rattle.scan_coord.specs.Decisions.{decision_of};

use seq_vector::Vector;

/// Whether a publication covers what is wanted.
#[derive(Clone, Copy, Debug, PartialEq, Eq)]
pub enum Decision {
    Covered,
    /// The least vBucket where it doesn't, the number that is wanted there, and the lesser one that it has.
    NotYet { vb: u32, want: u64, have: u64 },
}

/// Whether the newest publication, at this vector, covers what is wanted; else where it first doesn't.
pub fn decide(wanted: &Vector, newest: &Vector) -> Decision
    requires { length newest.now ≡ length wanted.now }
    ensures decision { result ≡ decision_of wanted.now newest.now }
    ensures covered { (result ≡ Decision.Covered) ↔ IsCovered wanted.now newest.now }
{
    match newest.first_short(wanted) {
        None => Decision::Covered,
        Some(vb) => Decision::NotYet {
            vb,
            want: wanted.get(vb),
            have: newest.get(vb),
        },
    }
}
