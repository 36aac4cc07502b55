#![tactic(auto)]

// Examples of flat, sparse and borrowed groups.
#[cfg(test)]
mod tests {
    use cells::cell::CellRow;
    use cells::fault::{Fault, Layer, Refusal};
    use cells::raw::RawBlock;
    use cells::reading::ReadingRow;
    use groups::compare::{equal, write_then_read};
    use groups::flat::Flat;
    use groups::group::Group;
    use groups::records::Record;
    use groups::sparse::Sparse;
    use std::process::Abort;
    use std::test::Fail;

    const EMPTY: RawBlock = RawBlock { high: 0, low: 0 };

    const LEVEL: ReadingRow = ReadingRow {
        level: 0,
        second: 0,
        quality: 0,
    };

    fn block(n: u64) -> RawBlock {
        RawBlock { high: n, low: 7 }
    }

    fn refused<T: Drop>(
        rt: &impl Abort,
        answer: Result<T, Fault>,
        fault: Fault,
    ) -> Result<(), Fail> {
        let Err(is) = answer else {
            return Err(Fail::new("taken"));
        };
        assert_eq!(rt; is, fault);
        Ok(())
    }

    #[test]
    fn a_shape_out_of_range_is_refused_before_memory(rt: HostRuntime) -> Result<(), Fail> {
        let rows = [EMPTY; 4096];
        let shape = Fault::new(Refusal::WrongShape, Layer::Pair);
        let short = Fault::new(Refusal::ShortMemory, Layer::Pair);
        Flat::test(&rows, 1, 1)?;
        Flat::test(&rows, 8, 512)?;
        refused(&rt, Flat::test(&rows, 0, 1), shape)?;
        refused(&rt, Flat::test(&rows, 9, 1), shape)?;
        refused(&rt, Flat::test(&rows, 1, 0), shape)?;
        refused(&rt, Flat::test(&rows, 1, 513), shape)?;
        refused(&rt, Flat::test(&rows[0..0], 9, 513), shape)?;
        Flat::test(&rows[0..6], 2, 3)?;
        refused(&rt, Flat::test(&rows[0..5], 2, 3), short)
    }

    #[test]
    fn sparse_memory_has_one_record_more(rt: HostRuntime) -> Result<(), Fail> {
        let records = [Record {
            address: 9,
            cell: LEVEL,
        }; 7];
        Sparse::test(&records, 2, 3)?;
        refused(
            &rt,
            Sparse::test(&records[0..6], 2, 3),
            Fault::new(Refusal::ShortMemory, Layer::Pair),
        )?;
        refused(
            &rt,
            Sparse::test(&records, 0, 3),
            Fault::new(Refusal::WrongShape, Layer::Pair),
        )
    }

    #[test]
    fn a_group_is_made_where_its_test_is_passed(rt: HostRuntime) -> Result<(), Fail> {
        let shape = Fault::new(Refusal::WrongShape, Layer::Pair);
        let short = Fault::new(Refusal::ShortMemory, Layer::Pair);
        let mut rows = [EMPTY; 6];
        refused(&rt, Flat::new(&mut rows, 9, 1), shape)?;
        refused(&rt, Flat::new(&mut rows, 1, 7), short)?;
        let mut flat = Flat::new(&mut rows, 2, 3)?;
        flat.write(1, 2, block(1))?;
        assert!(rt; flat.read(1, 2)?.same(block(1)) && flat.taken(1) == Ok(1));
        assert!(rt; rows[5].same(block(1)));
        let mut records = [Record {
            address: 0,
            cell: EMPTY,
        }; 7];
        refused(&rt, Sparse::new(&mut records, 0, 1), shape)?;
        refused(&rt, Sparse::new(&mut records, 7, 1), short)?;
        let mut sparse = Sparse::new(&mut records, 2, 3)?;
        sparse.write(0, 1, block(2))?;
        assert!(rt; sparse.read(0, 1)?.same(block(2)));
        assert!(rt; records[1].address == 1 && records[1].cell.same(block(2)));
        Ok(())
    }

    // Every call that a place beyond the group's is handed to, with the fault that it must give.
    fn beyond<G: Group<RawBlock>>(rt: &impl Abort, group: &mut G) -> Result<(), Fail> {
        let volume = Fault::in_volume(Refusal::NoSuchPlace, 2);
        let block = Fault::in_volume(Refusal::NoSuchPlace, 1);
        refused(rt, (*group).read(2, 0), volume)?;
        refused(rt, (*group).read(1, 3), block)?;
        refused(rt, (*group).write(2, 0, EMPTY), volume)?;
        refused(rt, (*group).write(1, 3, EMPTY), block)?;
        refused(rt, (*group).remount(2), volume)?;
        assert!(rt; (*group).read(1, 2).is_ok() && (*group).remount(1).is_ok());
        Ok(())
    }

    #[test]
    fn places_beyond_the_group_are_refused(rt: HostRuntime) -> Result<(), Fail> {
        let fault = Fault::in_volume(Refusal::NoSuchPlace, 2);
        let mut rows = [EMPTY; 6];
        let mut flat = Flat::over(&mut rows, 2, 3);
        beyond(&rt, &mut flat)?;
        refused(&rt, flat.protect(2), fault)?;
        refused(&rt, flat.taken(2), fault)?;
        let mut records = [Record {
            address: 0,
            cell: EMPTY,
        }; 7];
        let mut sparse = Sparse::over(&mut records, 2, 3);
        beyond(&rt, &mut sparse)?;
        refused(&rt, sparse.protect(2), fault)?;
        refused(&rt, sparse.taken(2), fault)?;
        assert!(rt; equal(&flat, &sparse));
        Ok(())
    }

    #[test]
    fn a_protected_volume_refuses_until_it_is_remounted(rt: HostRuntime) -> Result<(), Fail> {
        let fault = Fault::in_volume(Refusal::ReadOnly, 1);
        let mut rows = [EMPTY; 6];
        let mut flat = Flat::over(&mut rows, 3, 2);
        flat.write(1, 0, block(1))?;
        flat.protect(1)?;
        flat.protect(2)?;
        refused(&rt, flat.write(1, 0, block(2)), fault)?;
        refused(&rt, flat.write(1, 1, block(2)), fault)?;
        flat.write(0, 0, block(3))?;
        assert!(rt; flat.read(1, 0)?.same(block(1)));
        flat.remount(1)?;
        flat.write(1, 0, block(4))?;
        refused(
            &rt,
            flat.write(2, 0, block(4)),
            Fault::in_volume(Refusal::ReadOnly, 2),
        )?;
        assert!(rt; flat.read(1, 0)?.same(block(4)));
        assert!(rt; flat.taken(0) == Ok(1) && flat.taken(1) == Ok(2) && flat.taken(2) == Ok(0));
        Ok(())
    }

    #[test]
    fn a_flat_group_begins_with_what_its_memory_holds(rt: HostRuntime) -> Result<(), Fail> {
        let mut rows = [block(5); 4];
        let mut flat = Flat::over(&mut rows, 1, 3);
        flat.write(0, 1, block(6))?;
        assert!(rt; flat.read(0, 0)?.same(block(5)) && flat.read(0, 1)?.same(block(6)));
        assert!(rt; rows[2].same(block(5)) && rows[3].same(block(5)));
        Ok(())
    }

    #[test]
    fn records_stand_in_the_order_of_first_writes(rt: HostRuntime) -> Result<(), Fail> {
        let mut records = [Record {
            address: 4,
            cell: block(9),
        }; 9];
        let mut sparse = Sparse::over(&mut records, 2, 3);
        assert!(rt; sparse.read(1, 1)?.same(block(9)));
        sparse.write(1, 2, block(1))?;
        sparse.write(0, 2, block(2))?;
        sparse.write(1, 2, block(3))?;
        assert!(rt; sparse.read(1, 2)?.same(block(3)) && sparse.read(0, 2)?.same(block(2)));
        assert!(rt; sparse.read(1, 1)?.same(block(9)));
        assert!(rt; records[0].address == 4 && records[0].cell.same(block(9)));
        assert!(rt; records[1].address == 5 && records[1].cell.same(block(3)));
        assert!(rt; records[2].address == 2 && records[2].cell.same(block(2)));
        assert!(rt; records[3].address == 4 && records[3].cell.same(block(9)));
        Ok(())
    }

    #[test]
    fn groups_of_two_shapes_are_not_equal(rt: HostRuntime) -> Result<(), Fail> {
        let mut one = [LEVEL; 6];
        let mut other = [LEVEL; 6];
        let mut third = [LEVEL; 6];
        let mut wide = Flat::over(&mut one, 3, 2);
        let tall = Flat::over(&mut other, 2, 3);
        let mut same = Flat::over(&mut third, 3, 2);
        assert!(rt; !equal(&wide, &tall) && equal(&wide, &same));
        let row = ReadingRow {
            level: 4_000,
            second: 60,
            quality: 1,
        };
        wide.write(2, 1, row)?;
        assert!(rt; !equal(&wide, &same) && !equal(&same, &wide));
        same.write(2, 1, row)?;
        assert!(rt; equal(&wide, &same));
        Ok(())
    }

    // Takes a group by value, as one that is stacked on another would.
    fn held<G: Group<RawBlock> + Drop>(rt: &impl Abort, mut group: G) -> Result<(), Fail> {
        assert!(rt; write_then_read(&mut group, 1, 0, block(8))?.same(block(8)));
        refused(
            rt,
            write_then_read(&mut group, 1, 2, block(8)),
            Fault::in_volume(Refusal::NoSuchPlace, 1),
        )
    }

    #[test]
    fn what_is_written_is_read_through_a_borrowed_group(rt: HostRuntime) -> Result<(), Fail> {
        let mut rows = [EMPTY; 4];
        let mut flat = Flat::over(&mut rows, 2, 2);
        held(&rt, &mut flat)?;
        assert!(rt; flat.read(1, 0)?.same(block(8)) && flat.taken(1) == Ok(1));
        Ok(())
    }

    // The next of a row of numbers that look random.
    fn next(seed: u32) -> u32 {
        seed.wrapping_mul(1_664_525).wrapping_add(1_013_904_223)
    }

    // One call on both groups, by a number: they must answer alike.
    fn both(flat: &mut Flat<ReadingRow>, sparse: &mut Sparse<ReadingRow>, seed: u32) -> bool {
        let v = (seed >> 8) as usize % 5;
        let b = (seed >> 12) as usize % 8;
        let row = ReadingRow {
            level: (seed >> 16) as i32,
            second: seed,
            quality: (seed >> 30) as u8,
        };
        match (seed >> 28) % 8 {
            0 => flat.protect(v) == sparse.protect(v),
            1 | 2 => (*flat).remount(v) == (*sparse).remount(v),
            _ => (*flat).write(v, b, row) == (*sparse).write(v, b, row),
        }
    }

    #[test]
    fn flat_and_sparse_agree_at_each_of_a_thousand_calls(rt: HostRuntime) {
        let mut rows = [LEVEL; 28];
        let mut records = [Record {
            address: 0,
            cell: LEVEL,
        }; 29];
        let mut flat = Flat::over(&mut rows, 4, 7);
        let mut sparse = Sparse::over(&mut records, 4, 7);
        let mut seed = 2026;
        for _ in 0..1000 {
            seed = next(seed);
            assert!(rt; both(&mut flat, &mut sparse, seed));
            assert!(rt; equal(&flat, &sparse));
            let v = (seed >> 8) as usize % 5;
            assert!(rt; flat.taken(v) == sparse.taken(v));
        }
    }
}
