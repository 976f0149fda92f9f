use super::compare::same;
use std::process::Abort;
use std::test::Fail;
use wt_flights::{FlightTable, Row};
use wt_keys::{CacheKey, Fault, Field};

// Opens a load of a key that has no current one.
fn opened<K: CacheKey>(table: &mut FlightTable<K>, key: K) -> Result<u64, Fault> {
    if table.current(key).is_some() || table.next_id() >= 1 << 63 {
        return Err(Fault::Mixed);
    }
    table.begin(key)
}

fn row(id: u64, key: u64, current: bool, sharers: u64) -> Option<Row<u64>> {
    Some(Row {
        id,
        key,
        current,
        sharers,
    })
}

#[test]
fn a_limit_is_from_1_to_4096(rt: HostRuntime) {
    let bad = Err(Fault::BadConfig {
        field: Field::Flights,
    });
    for (limit, want) in [(0, bad), (1, Ok((0, 1))), (4096, Ok((0, 1))), (4097, bad)] {
        let made = FlightTable::<u64>::new(rt.alloc(), limit);
        let got = made.map(|table| (table.len(), table.next_id()));
        same(
            &rt,
            "a limit, with the rows and the next id",
            (limit, got),
            (limit, want),
        );
    }
}

// Forgets the load of 7 and begins one anew, in a table of two loads.
fn forget_one(rt: &impl Abort, table: &mut FlightTable<u64>) -> Result<(), Fault> {
    same(
        rt,
        "two forgets of 7",
        (table.forget(7), table.forget(7)),
        (true, false),
    );
    same(rt, "the load of 7 after its forget", table.current(7), None);
    same(rt, "the next load's id", opened(table, 7)?, 2);
    let full = Err(Fault::TooManyFlights { limit: 2 });
    same(rt, "a third load of two", opened(table, 8), full);
    Ok(())
}

// The forgotten load, and 7's next one.
fn expect_both(rt: &impl Abort, table: &FlightTable<u64>) {
    let loads = (table.current(7), table.oldest_load(7), table.oldest_load(8));
    same(rt, "loads of 7 and 8", loads, (Some(2), Some(1), None));
    let rows = (table.row(1), table.row(2), table.row(3));
    same(
        rt,
        "the rows of 1, 2 and 3",
        rows,
        (row(1, 7, false, 2), row(2, 7, true, 1), None),
    );
}

fn land_forgotten(rt: &impl Abort, table: &mut FlightTable<u64>) {
    same(
        rt,
        "the row of 1 as it lands",
        table.land(1),
        row(1, 7, false, 2),
    );
    same(rt, "a second landing of 1", table.land(1), None);
    let loads = (table.current(7), table.oldest_load(7));
    same(
        rt,
        "loads of 7 after the landing",
        loads,
        (Some(2), Some(2)),
    );
}

// Begins a load of 8, forgets it and 7's, and lands both.
fn forget_all(rt: &impl Abort, table: &mut FlightTable<u64>) -> Result<(), Fault> {
    same(rt, "the third load's id", opened(table, 8)?, 3);
    table.forget_all();
    same(
        rt,
        "loads after forgetting all",
        (table.current(7), table.current(8)),
        (None, None),
    );
    let landed = (table.land(3), table.land(2));
    same(
        rt,
        "the rows of 3 and 2 as they land",
        landed,
        (row(3, 8, false, 1), row(2, 7, false, 1)),
    );
    same(
        rt,
        "rows and next id at the end",
        (table.len(), table.next_id()),
        (0, 4),
    );
    Ok(())
}

#[test]
fn a_forgotten_load_stays_open_beside_its_keys_next_one(rt: HostRuntime) -> Result<(), Fail> {
    let mut table = FlightTable::new(rt.alloc(), 2)?;
    same(&rt, "the first load's id", table.begin(7u64)?, 1);
    let joins = (table.join(7), table.join(8));
    same(&rt, "joins of 7 and of 8", joins, (Some(1), None));
    forget_one(&rt, &mut table)?;
    expect_both(&rt, &table);
    land_forgotten(&rt, &mut table);
    forget_all(&rt, &mut table)?;
    Ok(())
}

#[test]
fn as_many_loads_are_open_as_may_be(rt: HostRuntime) -> Result<(), Fail> {
    let mut table = FlightTable::new(rt.alloc(), 4096)?;
    for key in 1..=4096u64 {
        same(&rt, "a load's id", opened(&mut table, key)?, key);
    }
    same(&rt, "open loads", table.len(), 4096);
    same(
        &rt,
        "a load past the limit",
        opened(&mut table, 4097),
        Err(Fault::TooManyFlights { limit: 4096 }),
    );
    for id in 1..=4096u64 {
        same(
            &rt,
            "the row as it lands",
            table.land(id),
            row(id, id, true, 1),
        );
    }
    same(
        &rt,
        "rows and next id at the end",
        (table.len(), table.next_id()),
        (0, 4097),
    );
    same(
        &rt,
        "the id after all have landed",
        opened(&mut table, 1)?,
        4097,
    );
    Ok(())
}

// Begins a load of a key that has no current one, and takes it back.
fn begin_and_take_back(table: &mut FlightTable<u64>, key: u64) -> Result<(), Fault> {
    if table.current(key).is_some() || table.next_id() >= 1 << 63 {
        return Err(Fault::Mixed);
    }
    table.begin(key)?;
    table.take_back();
    Ok(())
}

#[test]
fn a_load_that_is_taken_back_was_never_begun(rt: HostRuntime) -> Result<(), Fail> {
    let mut table = FlightTable::new(rt.alloc(), 2)?;
    opened(&mut table, 7u64)?;
    begin_and_take_back(&mut table, 8)?;
    same(
        &rt,
        "rows, next id and the load of 8",
        (table.len(), table.next_id(), table.current(8)),
        (1, 2, None),
    );
    same(&rt, "the id taken back", opened(&mut table, 9)?, 2);
    Ok(())
}

// With `--fail-alloc`, one of these begins is refused, and the table is as it was.
#[test]
fn a_refused_begin_changes_nothing(rt: HostRuntime) -> Result<(), Fail> {
    let mut table = FlightTable::new(rt.alloc(), 16)?;
    for key in 1..=16u64 {
        let next = table.next_id();
        match opened(&mut table, key) {
            Ok(id) => same(&rt, "the id of a load", id, next),
            Err(fault) => {
                same(&rt, "the fault of a refused begin", fault, Fault::NoMemory);
                same(
                    &rt,
                    "next id and the key's load after a refused begin",
                    (table.next_id(), table.current(key)),
                    (next, None),
                );
                same(
                    &rt,
                    "the rows after a refused begin",
                    (table.len() as u64).wrapping_add(1),
                    next,
                );
                return Ok(());
            }
        }
    }
    same(
        &rt,
        "a load past the limit",
        opened(&mut table, 17),
        Err(Fault::TooManyFlights { limit: 16 }),
    );
    Ok(())
}
