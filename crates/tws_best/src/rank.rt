//! How good a solution is.

ghost use Rattle.std.specs.Prelude.{◌≡◌, ◌≤◌, length};
ghost use Rattle.std.specs.Cmp.{eq_by_cmp_equiv, partial_equiv_from_equiv, partial_order_from_agreeing_total};
ghost use Rattle.std.specs.Ordering.{as_partial_cmp, eq_by_cmp};
ghost use Rattle.std.proofs.Common.{refl};
ghost use Rattle.tws_best.specs.Rank.{rank_of, rank_cmp};
ghost use Rattle.tws_best.specs.RankOrder.{rank_total};

use byteorder::{ByteOrder, LittleEndian};
use std::cmp::Ordering;
use std::marker::Model;

/// How good a solution is. The lowest rank is the best: fewer ticks, then the shorter body, then the smaller bytes.
#[derive(Drop)]
pub struct Rank<'a> {
    ticks: u32,
    size: usize,
    bytes: &'a [u8],
}

impl<'a> Model for Rank<'a> {
    ghost use Rattle.tws_best.specs.Rank.{Ranking};

    ghost Value = { Ranking };

    ghost use Rattle.tws_best.specs.Rankings.{ranking_of};

    ghost view = { ranking_of };
}

impl<'a> Rank<'a> {
    /// The rank of a solution with this body, which is the bytes after its record's size. There are at least 16.
    pub fn of(body: &'a [u8]) -> Self
        requires { 16 ≤ length body.now }
        ensures { result ≡ rank_of body.now }
    {
        Rank {
            ticks: LittleEndian::read_u32(&body[12..]),
            size: body.len(),
            bytes: body,
        }
    }

    // The time that the solution takes, in ticks of 1/20 second.
    pub(crate) fn ticks(&self) -> u32
        ensures { result ≡ self.now.ticks }
    {
        self.ticks
    }
}

impl<'a> Ord for Rank<'a> {
    ghost cmp = { rank_cmp };

    ghost total = { rank_total };

    ghost matches_partial_cmp = { λ q r. refl };

    ghost matches_eq = { λ q r. refl };

    fn cmp(&self, other: &Rank<'a>) -> Ordering {
        let order = self
            .ticks
            .cmp(&other.ticks)
            .then(self.size.cmp(&other.size));
        if order.is_eq() {
            self.bytes.cmp(other.bytes)
        } else {
            order
        }
    }
}

impl<'a> PartialOrd for Rank<'a> {
    ghost partial_cmp = { as_partial_cmp rank_cmp };

    ghost laws = { partial_order_from_agreeing_total rank_cmp rank_total (λ q r. refl) (λ q r. refl) };

    fn partial_cmp(&self, other: &Rank<'a>) -> Option<Ordering> {
        Some(self.cmp(other))
    }
}

impl<'a> PartialEq for Rank<'a> {
    ghost eq = { eq_by_cmp rank_cmp };

    ghost laws = { partial_equiv_from_equiv (eq_by_cmp_equiv rank_total) };

    fn eq(&self, other: &Rank<'a>) -> bool {
        self.cmp(other).is_eq()
    }
}

impl<'a> Eq for Rank<'a> {
    ghost laws = { eq_by_cmp_equiv rank_total };
}
