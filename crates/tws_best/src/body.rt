//! Bodies of solutions, which collections and snapshots share.

ghost use Rattle.std.specs.Prelude.{◌≡◌, ◌<◌, ◌≤◌, ◌^◌, length, IfOk};
ghost use Rattle.std.specs.Ordering.{is_lt};
ghost use Rattle.tws_best.specs.Rank.{rank_of, rank_cmp};
ghost use Rattle.tws_best.specs.Best.{IsBody, body_text, keyed_body};

use crate::rank::Rank;
use std::alloc::{AllocError, Allocator};
use std::clone::Clone;
use std::marker::Model;
use std::rc::RcSlice;
use tws_file::Solution;

// The body of a solution's record. Collections and snapshots share its bytes: a clone does not allocate.
#[derive(Drop)]
pub(crate) struct Body<A: Allocator> {
    bytes: RcSlice<u8, A>,
}

impl<A: Allocator> Model for Body<A> {
    ghost use Rattle.std.specs.Prelude.{ℕ, List};

    ghost Value = { List ℕ };

    ghost use Rattle.std.specs.Rc.{rc_slice_items};
    ghost use Rattle.tws_best.specs.Best.{IsBody};

    ghost view = { λ b. rc_slice_items b.bytes };

    ghost invariant = { λ b. IsBody (rc_slice_items b.bytes) };
}

impl<A: Allocator + Copy> Body<A> {
    // Makes the bytes of a vector shareable.
    pub(crate) fn of(bytes: Vec<u8, A>) -> Result<Self, AllocError>
        requires { IsBody bytes.items }
        ensures { IfOk result (λ body. body ≡ bytes.items) }
    {
        let bytes = RcSlice::from_vec(bytes)?;
        Ok(Body { bytes })
    }
}

impl<A: Allocator> Body<A> {
    pub(crate) fn as_slice(&self) -> &[u8]
        ensures bytes { result.now ≡ self.now }
        ensures fits { IsBody self.now }
    {
        self.bytes.as_slice()
    }

    // The length of the body, which fits in the four bytes of a record's size.
    pub(crate) fn size(&self) -> u32
        ensures { result ≡ length self.now }
    {
        self.bytes.len() as u32
    }

    // The length of its record, which begins with the size.
    pub(crate) fn record_len(&self) -> u128
        ensures is { result ≡ length (body_text self.now) }
        ensures size { length self.now < 2 ^ 32 }
    {
        4 + u128::from(self.size())
    }

    // Whether `solution` has the lower rank, so is the better one. Its body is not built for the comparison.
    pub(crate) fn is_worse_than<B: Allocator>(&self, solution: &Solution<B>) -> bool
        ensures { result ≡ is_lt (rank_cmp (rank_of (keyed_body solution.now).body) (rank_of self.now)) }
    {
        let ticks = Rank::of(self.as_slice()).ticks();
        let order = solution
            .ticks
            .cmp(&ticks)
            .then(solution.body_len().cmp(&self.size()));
        if order.is_eq() {
            solution.cmp_body(self.as_slice()).is_lt()
        } else {
            order.is_lt()
        }
    }
}

impl<A: Allocator> Clone for Body<A> {
    ghost is_clone = { λ body copy. copy ≡ body };

    fn clone(&self) -> Result<Self, AllocError> {
        let bytes = self.bytes.clone()?;
        Ok(Body { bytes })
    }
}
