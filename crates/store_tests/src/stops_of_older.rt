//! Stops as an older store is carried over: they leave the old store or the new one, and either has
//! the same contents.
use crate::older_stores::{first_text, second_text};
use crate::stopping::{Row, held_in, made_by, stops_from_opening};
use std::alloc::Global;
use std::test::Fail;

/// Asks the store that is opened again what it holds, and makes a deposit that it knows and one
/// that it doesn't.
const LOOK: &str = r"maildrops
list orders
clerk show mrose
explain bob orders pay read
deposit orders todo d4 A: 1\r\n\r\none\r\ntwo\r\nthree\r\n
deposit orders todo d6 A: 2\n
list orders
";

/// What `LOOK` prints with the sample store, without its fourth message.
const HELD: &str = "answer orders 3 55
answer note.1 21
answer pay.1 19
answer note.2 15
answer apop
answer deny by rule bob-no-pay
answer known todo.1
answer new todo.2
answer note.1 21
answer pay.1 19
answer note.2 15
answer todo.2 6
";

/// Stops both files in turn as the store that these statements make is opened.
fn expect_stopped_carrying(alloc: Global, sql: &str) -> Result<(), Fail> {
    let files = made_by(alloc, sql)?;
    let row = Row {
        begun: held_in(&files),
        acts: &[],
        look: LOOK,
        before: HELD,
    };
    let of_log = stops_from_opening(alloc, &row, true)?;
    let of_db = stops_from_opening(alloc, &row, false)?;
    if of_log.refused == 0 || of_db.refused == 0 {
        return Err(Fail::new("no carry-over was stopped"));
    }
    Ok(())
}

#[test]
fn stops_in_a_carry_over_of_version_1(rt: HostRuntime) -> Result<(), Fail> {
    let alloc = rt.alloc();
    let sql = first_text(alloc)?;
    expect_stopped_carrying(alloc, sql.as_str())
}

#[test]
fn stops_in_a_carry_over_of_version_2(rt: HostRuntime) -> Result<(), Fail> {
    let alloc = rt.alloc();
    let sql = second_text(alloc)?;
    expect_stopped_carrying(alloc, sql.as_str())
}
