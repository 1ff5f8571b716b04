//! Vectors of sequence numbers, one number for each vBucket, and the vBucket of an id.
//!
//! This crate knows no mutation and no index: a vector says how far something has come, and no more.
#![tactic(auto)]

pub mod laws;
mod vbucket;
mod vector;

pub use vbucket::vb_of;
pub use vector::{Vector, zero};

#[cfg(test)]
mod tests {
    use super::*;
    use std::test::Fail;

    #[test]
    fn ids_go_to_their_vbuckets(rt: HostRuntime) {
        assert_eq!(rt; vb_of("a", 1024), 300);
        assert_eq!(rt; vb_of("a", u32::MAX), 0xe40c_292c);
        let of_four = [vb_of("d", 4), vb_of("c", 4), vb_of("b", 4), vb_of("a", 4)];
        assert_eq!(rt; of_four, [3, 2, 1, 0]);
        assert_eq!(rt; vb_of("", 1024), 2_166_136_261 % 1024);
    }

    #[test]
    fn vectors_join_and_meet(rt: HostRuntime) -> Result<(), Fail> {
        let mut low = zero(rt.alloc(), 3)?;
        let mut high = low.copy(rt.alloc())?;
        high.set(1, 7);
        low.set(2, 5);
        assert_eq!(rt; high.covers(&low), false);
        assert_eq!(rt; high.first_short(&low), Some(2));
        high.join_in(&low);
        assert!(rt; high.covers(&low));
        low.meet_in(&high);
        assert_eq!(rt;
            (low.get(1), low.get(2), high.get(1), low.len()),
            (0, 5, 7, 3)
        );
        Ok(())
    }
}
