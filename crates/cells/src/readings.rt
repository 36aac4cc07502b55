// What a reading can do, and its nine bytes.
ghost use Rattle.std.specs.Prelude.{◌≡◌, ℕ, length, replicate, if◌then◌else◌, Some, None, Decides, ◌==◌, nat_eq};
ghost use Rattle.std.proofs.Common.{ap, ◌∙◌, rules};
ghost use Rattle.cells.specs.Faults.{answered};
ghost use Rattle.cells.specs.Readings.{made, quality_number, quality_of, reading_bytes, reading_of, reading_reads, row_at, row_of, standing, makes, row_bytes, zeros};
ghost use Rattle.cells.specs.ReadingBytes.{length-row, bytes-row, makes-standing, row_read, row_back, standing_made};
ghost use Rattle.std.proofs.lemmas.Bool.{and_from, eq-eqb, and_parts, eqb-true};

use crate::cell::CellRow;
use crate::fault::{Fault, not_a_cell};
use crate::reading::{Quality, Reading, ReadingRow};

// The lowest and the highest level that a gauge gives, in millimetres.
const LOWEST: i32 = -50_000;

const HIGHEST: i32 = 500_000;

impl From<Quality> for u8 {
    ghost from_gives = { λ q n. n ≡ quality_number q };

    fn from(quality: Quality) -> u8 {
        quality as u8
    }
}

impl TryFrom<u8> for Quality {
    type Error = Fault;

    ghost try_from_gives = { λ n r. r ≡ quality_of n };

    fn try_from(number: u8) -> Result<Quality, Fault> {
        match number {
            0 => Ok(Quality::Good),
            1 => Ok(Quality::Doubtful),
            2 => Ok(Quality::Estimated),
            3 => Ok(Quality::Missing),
            _ => Err(not_a_cell()),
        }
    }
}

impl Reading {
    pub fn new(level: i32, second: u32, quality: Quality) -> Result<Reading, Fault>
        ensures { answered row_of result ≡ reading_of level second quality }
    {
        if !(LOWEST..=HIGHEST).contains(&level) {
            return Err(not_a_cell());
        }
        Ok(Reading {
            level,
            second,
            quality,
        })
    }
}

// By hand, as what other rows stand for is a reading of its own choice and not of its fields'.
impl Default for Reading {
    ghost is_default = { λ r. row_of r ≡ zeros };

    fn default() -> Reading {
        Reading {
            level: 0,
            second: 0,
            quality: Quality::Good,
        }
    }
}

// The row of a reading, which stands for just that reading.
impl From<Reading> for ReadingRow {
    ghost from_gives = { λ r row. (row ≡ row_of r) × (standing row ≡ row) };

    fn from(reading: Reading) -> ReadingRow {
        ReadingRow {
            level: reading.level,
            second: reading.second,
            quality: u8::from(reading.quality),
        }
    }
}

// The reading that a row's numbers make, if any.
impl TryFrom<ReadingRow> for Reading {
    type Error = Fault;

    ghost try_from_gives = { λ row r. answered row_of r ≡ made row };

    fn try_from(row: ReadingRow) -> Result<Reading, Fault> {
        Reading::new(row.level, row.second, Quality::try_from(row.quality)?)
    }
}

impl ReadingRow {
    // The reading that the row stands for.
    pub fn reading(self) -> Reading
        ensures { row_of result ≡ standing self }
    {
        Reading::try_from(self).unwrap_or_default()
    }
}

// The numbers that nine bytes write.
fn row_at(from: &[u8]) -> Option<ReadingRow>
    ensures { result ≡ (if nat_eq (length from.now) 9 then Some (row_at from.now) else None) }
{
    let [a, b, c, d, e, f, g, h, quality] = from else {
        return None;
    };
    let level = i32::from_be_bytes([*a, *b, *c, *d]);
    let second = u32::from_be_bytes([*e, *f, *g, *h]);
    Some(ReadingRow {
        level,
        second,
        quality: *quality,
    })
}

impl CellRow for ReadingRow {
    ghost width = { 9 };

    ghost bytes = { reading_bytes };

    ghost reads = { reading_reads };

    ghost nought = { replicate 9 0 };

    ghost least = { Prim.search rules };

    ghost most = { Prim.search rules };

    ghost compact = { Prim.search rules };

    ghost aligned = { Prim.search rules };

    ghost wide = { λ r. length-row (standing r) };

    ghost small = { λ r. bytes-row (standing r) (makes-standing r) };

    ghost read = { λ r. and_from (length (reading_bytes r) == 9) (makes (row_at (reading_bytes r))) (eq-eqb (length (reading_bytes r)) 9 (length-row (standing r))) (row_read (standing r) (makes-standing r)) };

    ghost sized = { λ bs e. eqb-true (length bs) 9 (and_parts (length bs == 9) (makes (row_at bs)) e).0 };

    ghost written = { λ bs h e.
        let p = and_parts (length bs == 9) (makes (row_at bs)) e in
        (row_at bs, ap row_bytes (standing_made (row_at bs) p.1) ∙ row_back bs h (eqb-true (length bs) 9 p.0)) };

    fn width() -> usize {
        9
    }

    #[tactic(auto, using(crate::specs::ReadingBytes::reading_zero))]
    fn zero() -> ReadingRow {
        ReadingRow::default()
    }

    fn put(self, out: &mut [u8; 16]) {
        let row = ReadingRow::from(self.reading());
        let [a, b, c, d] = row.level.to_be_bytes();
        let [e, f, g, h] = row.second.to_be_bytes();
        out[0..9].copy_from_slice(&[a, b, c, d, e, f, g, h, row.quality]);
    }

    fn get(from: &[u8]) -> Result<ReadingRow, Fault> {
        let row = row_at(from).ok_or(not_a_cell())?;
        let reading = Reading::try_from(row)?;
        Ok(ReadingRow::from(reading))
    }

    fn same(self, other: ReadingRow) -> bool {
        ReadingRow::from(self.reading()) == ReadingRow::from(other.reading())
    }
}
