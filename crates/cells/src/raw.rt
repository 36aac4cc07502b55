// Raw blocks: two 64-bit numbers, sixteen bytes. Every row is a cell, and every sixteen bytes are one.
ghost use Rattle.std.specs.Prelude.{◌≡◌, ℕ, length, replicate, if◌then◌else◌, Some, None, Decides, nat_eq};
ghost use Rattle.cells.specs.Raws.{raw_at, raw_bytes, raw_reads};
ghost use Rattle.cells.specs.RawBytes.{length-raw, bytes-raw, raw_back};
ghost use Rattle.std.proofs.lemmas.Bool.{eq-eqb, eqb-true};
ghost use Rattle.std.proofs.Common.{rules};

use crate::cell::CellRow;
use crate::fault::{Fault, not_a_cell};

#[derive(Clone, Copy, PartialEq, Eq, Debug, Default)]
pub struct RawBlock {
    pub high: u64,
    pub low: u64,
}

// The block that sixteen bytes write.
fn block_at(from: &[u8]) -> Option<RawBlock>
    ensures { result ≡ (if nat_eq (length from.now) 16 then Some (raw_at from.now) else None) }
{
    let [a, b, c, d, e, f, g, h, i, j, k, l, m, n, o, p] = from else {
        return None;
    };
    let high = u64::from_be_bytes([*a, *b, *c, *d, *e, *f, *g, *h]);
    let low = u64::from_be_bytes([*i, *j, *k, *l, *m, *n, *o, *p]);
    Some(RawBlock { high, low })
}

impl CellRow for RawBlock {
    ghost width = { 16 };

    ghost bytes = { raw_bytes };

    ghost reads = { raw_reads };

    ghost nought = { replicate 16 0 };

    ghost least = { Prim.search rules };

    ghost most = { Prim.search rules };

    ghost compact = { Prim.search rules };

    ghost aligned = { Prim.search rules };

    ghost wide = { λ r. length-raw r };

    ghost small = { λ r. bytes-raw r };

    ghost read = { λ r. eq-eqb (length (raw_bytes r)) 16 (length-raw r) };

    ghost sized = { Prim.search rules };

    ghost written = { λ bs h e. (raw_at bs, raw_back bs h (eqb-true (length bs) 16 e)) };

    fn width() -> usize {
        16
    }

    #[tactic(auto, using(crate::specs::RawBytes::raw_zero))]
    fn zero() -> RawBlock {
        RawBlock::default()
    }

    fn put(self, out: &mut [u8; 16]) {
        out[0..8].copy_from_slice(&self.high.to_be_bytes());
        out[8..16].copy_from_slice(&self.low.to_be_bytes());
    }

    fn get(from: &[u8]) -> Result<RawBlock, Fault> {
        block_at(from).ok_or(not_a_cell())
    }

    fn same(self, other: RawBlock) -> bool {
        self == other
    }
}
