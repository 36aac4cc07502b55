// carry_day: lays a day of readings into a flat and a sparse group, carries each written cell over a queue that
// loses, doubles and overtakes, and tells what became of them.
#![tactic(auto)]

use crate::day::run;
use anyhow::anyhow;
use cells::reading::ReadingRow;
use groups::records::Record;
use links::place::Place;

mod carry;
mod day;

fn carry_day(rt: &HostRuntime) -> anyhow::Result<()> {
    let none = ReadingRow::default();
    let unused = Record {
        address: 0,
        cell: none,
    };
    let heap = rt.alloc();
    let mut rows = vec![in heap; none; 192]?;
    let mut records = vec![in heap; unused; 193]?;
    let mut far = vec![in heap; unused; 193]?;
    let mut places = vec![in heap; Place::EMPTY; 4]?;
    match run(&mut rows, &mut records, &mut far, &mut places) {
        Ok(tally) => {
            print!(rt; "{tally}")?;
            Ok(())
        }
        Err(fault) => {
            eprintln!(rt; "refused with {}", fault.refusal)?;
            Err(anyhow!("the day was not carried"))
        }
    }
}

fn main(rt: HostRuntime) -> anyhow::Result<()> {
    carry_day(&rt)
}
