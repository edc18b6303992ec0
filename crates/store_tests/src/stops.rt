//! Stops: a file of a store fails from each of its calls on, in turn. The store is then opened
//! again over what is left: once with nothing lost, as after a kill, and once without all that
//! wasn't synced, as after a loss of power.
use crate::stopping::{
    Act, NOTHING_HELD, Row, changes, held_in, left_after, stops_from_opening, stops_in_acts,
    stops_in_maintenance,
};
use std::alloc::Global;
use std::test::Fail;
use transcripts::playing::parts_of;
use transcripts::sessions::SAMPLE;

/// Asks a store that is opened again what it holds, and makes the deposit again.
const LOOK: &str = "maildrops
list orders
deposit orders note d1 hi
list orders
";

/// What `LOOK` prints with no maildrop.
const NOTHING: &str = "answer
answer no such maildrop
answer no such maildrop
answer no such maildrop
";

/// What `LOOK` prints with an empty maildrop.
const NO_MESSAGE: &str = "answer orders 0 0
answer
answer new note.1
answer note.1 4
";

/// What `LOOK` prints with the message.
const MESSAGE: &str = "answer orders 1 4
answer note.1 4
answer known note.1
answer note.1 4
";

/// A maildrop and a deposit, after an event that doesn't call the store.
static DEPOSIT: [Act; 3] = [
    Act {
        line: "sessions",
        told: "answer\n",
        after: NOTHING,
    },
    Act {
        line: "maildrop add orders",
        told: "answer added\n",
        after: NO_MESSAGE,
    },
    Act {
        line: "deposit orders note d1 hi",
        told: "answer new note.1\n",
        after: MESSAGE,
    },
];

/// The maildrop and the deposit, as a transcript.
static DEPOSITED: &str = "> maildrop add orders
answer added
> deposit orders note d1 hi
answer new note.1
";

/// A maildrop, as a transcript.
static MAILDROP: &str = "> maildrop add orders
answer added
";

/// A maildrop is dropped, and added again, after an event that doesn't call the store.
static DROP: [Act; 3] = [
    Act {
        line: "sessions",
        told: "answer\n",
        after: NO_MESSAGE,
    },
    Act {
        line: "maildrop drop orders",
        told: "answer dropped\n",
        after: NOTHING,
    },
    Act {
        line: "maildrop add orders",
        told: "answer added\n",
        after: NO_MESSAGE,
    },
];

/// Asks what is held after a pipelined session, and makes its deposit again.
const PIPELINED_LOOK: &str = r"maildrops
list orders
deposit orders note d5 x\n
list orders
";

/// What `PIPELINED_LOOK` prints with the sample store.
const PIPELINED_BEFORE: &str = "answer orders 4 80
answer note.1 21
answer pay.1 19
answer note.2 15
answer todo.1 25
answer new note.3
answer note.1 21
answer pay.1 19
answer note.2 15
answer todo.1 25
answer note.3 3
";

/// What `PIPELINED_LOOK` prints with the deposit.
const PIPELINED_ARRIVED: &str = "answer orders 5 83
answer note.1 21
answer pay.1 19
answer note.2 15
answer todo.1 25
answer note.3 3
answer known note.3
answer note.1 21
answer pay.1 19
answer note.2 15
answer todo.1 25
answer note.3 3
";

/// What `PIPELINED_LOOK` prints without the message that was removed.
const PIPELINED_REMOVED: &str = "answer orders 4 62
answer pay.1 19
answer note.2 15
answer todo.1 25
answer note.3 3
answer known note.3
answer pay.1 19
answer note.2 15
answer todo.1 25
answer note.3 3
";

/// Ann sends three lines at once, and takes seven octets at a time; a deposit comes meanwhile.
static PIPELINED: [Act; 20] = [
    Act {
        line: "connect",
        told: "opened 1\n",
        after: PIPELINED_BEFORE,
    },
    Act {
        line: "drain 1",
        told: r"sent 1 +OK POP3 server ready <1.7@h.test>\r\n
done
",
        after: PIPELINED_BEFORE,
    },
    Act {
        line: r"bytes 1 USER ann/orders\r\n",
        told: "done\n",
        after: PIPELINED_BEFORE,
    },
    Act {
        line: "drain 1",
        told: r"sent 1 +OK send PASS\r\n
done
",
        after: PIPELINED_BEFORE,
    },
    Act {
        line: r"bytes 1 PASS s3 cret\r\n",
        told: "done\n",
        after: PIPELINED_BEFORE,
    },
    Act {
        line: "drain 1",
        told: r"sent 1 +OK maildrop has 4 messages (80 octets)\r\n
done
",
        after: PIPELINED_BEFORE,
    },
    Act {
        line: r"bytes 1 RETR 1\r\nDELE 1\r\nQUIT\r\n",
        told: "done\n",
        after: PIPELINED_BEFORE,
    },
    Act {
        line: "took 1 7",
        told: "sent 1 +OK 21 \ndone\n",
        after: PIPELINED_BEFORE,
    },
    Act {
        line: "took 1 7",
        told: r"sent 1 octets\r
done
",
        after: PIPELINED_BEFORE,
    },
    Act {
        line: "took 1 7",
        told: r"sent 1 \nSubjec
done
",
        after: PIPELINED_BEFORE,
    },
    Act {
        line: r"deposit orders note d5 x\n",
        told: "answer new note.3\n",
        after: PIPELINED_ARRIVED,
    },
    Act {
        line: "took 1 7",
        told: r"sent 1 t: a\r\n\r
done
",
        after: PIPELINED_ARRIVED,
    },
    Act {
        line: "took 1 7",
        told: r"sent 1 \nhi\r\n..
done
",
        after: PIPELINED_ARRIVED,
    },
    Act {
        line: "took 1 5",
        told: r"sent 1 \r\n.\r\n
done
",
        after: PIPELINED_ARRIVED,
    },
    Act {
        line: "took 1 7",
        told: "sent 1 +OK mes\ndone\n",
        after: PIPELINED_ARRIVED,
    },
    Act {
        line: "took 1 7",
        told: "sent 1 sage 1 \ndone\n",
        after: PIPELINED_ARRIVED,
    },
    Act {
        line: "took 1 7",
        told: "sent 1 deleted\ndone\n",
        after: PIPELINED_ARRIVED,
    },
    Act {
        line: "took 1 2",
        told: r"sent 1 \r\n
done
",
        after: PIPELINED_REMOVED,
    },
    Act {
        line: "took 1 7",
        told: "sent 1 +OK bye\ndone\n",
        after: PIPELINED_REMOVED,
    },
    Act {
        line: "took 1 2",
        told: r"sent 1 \r\n
done
ended 1
",
        after: PIPELINED_REMOVED,
    },
];

/// Asks what is held after a restart, and makes the deposit that comes after it again.
const RESTARTED_LOOK: &str = r"maildrops
list orders
deposit orders todo d6 A: 2\n
list orders
";

/// What `RESTARTED_LOOK` prints with the sample store.
const RESTARTED_BEFORE: &str = "answer orders 4 80
answer note.1 21
answer pay.1 19
answer note.2 15
answer todo.1 25
answer new todo.2
answer note.1 21
answer pay.1 19
answer note.2 15
answer todo.1 25
answer todo.2 6
";

/// What `RESTARTED_LOOK` prints without the message that was removed.
const RESTARTED_REMOVED: &str = "answer orders 3 55
answer note.1 21
answer pay.1 19
answer note.2 15
answer new todo.2
answer note.1 21
answer pay.1 19
answer note.2 15
answer todo.2 6
";

/// What `RESTARTED_LOOK` prints with the deposit after the restart.
const RESTARTED_ARRIVED: &str = "answer orders 4 61
answer note.1 21
answer pay.1 19
answer note.2 15
answer todo.2 6
answer known todo.2
answer note.1 21
answer pay.1 19
answer note.2 15
answer todo.2 6
";

/// A message is removed, and the office starts again: the deposit's id and the unique-id stay used.
static RESTARTED: [Act; 17] = [
    Act {
        line: "connect",
        told: "opened 1\n",
        after: RESTARTED_BEFORE,
    },
    Act {
        line: "drain 1",
        told: r"sent 1 +OK POP3 server ready <1.7@h.test>\r\n
done
",
        after: RESTARTED_BEFORE,
    },
    Act {
        line: r"bytes 1 USER ann/orders\r\n",
        told: "done\n",
        after: RESTARTED_BEFORE,
    },
    Act {
        line: "drain 1",
        told: r"sent 1 +OK send PASS\r\n
done
",
        after: RESTARTED_BEFORE,
    },
    Act {
        line: r"bytes 1 PASS s3 cret\r\n",
        told: "done\n",
        after: RESTARTED_BEFORE,
    },
    Act {
        line: "drain 1",
        told: r"sent 1 +OK maildrop has 4 messages (80 octets)\r\n
done
",
        after: RESTARTED_BEFORE,
    },
    Act {
        line: r"bytes 1 DELE 4\r\n",
        told: "done\n",
        after: RESTARTED_BEFORE,
    },
    Act {
        line: "drain 1",
        told: r"sent 1 +OK message 4 deleted\r\n
done
",
        after: RESTARTED_BEFORE,
    },
    Act {
        line: r"bytes 1 QUIT\r\n",
        told: "done\n",
        after: RESTARTED_REMOVED,
    },
    Act {
        line: "drain 1",
        told: r"sent 1 +OK bye\r\n
done
ended 1
",
        after: RESTARTED_REMOVED,
    },
    Act {
        line: "restart 8",
        told: "done\n",
        after: RESTARTED_REMOVED,
    },
    Act {
        line: "connect",
        told: "opened 1\n",
        after: RESTARTED_REMOVED,
    },
    Act {
        line: "drain 1",
        told: r"sent 1 +OK POP3 server ready <1.8@h.test>\r\n
done
",
        after: RESTARTED_REMOVED,
    },
    Act {
        line: r"deposit orders todo d6 A: 2\n",
        told: "answer new todo.2\n",
        after: RESTARTED_ARRIVED,
    },
    Act {
        line: r"deposit orders todo d4 A: 1\r\n\r\none\r\ntwo\r\nthree\r\n",
        told: "answer known todo.1\n",
        after: RESTARTED_ARRIVED,
    },
    Act {
        line: r"deposit orders todo d4 A: 3\n",
        told: "answer conflict\n",
        after: RESTARTED_ARRIVED,
    },
    Act {
        line: r"deposit orders note d4 A: 1\r\n\r\none\r\ntwo\r\nthree\r\n",
        told: "answer conflict\n",
        after: RESTARTED_ARRIVED,
    },
];

/// Asks for a clerk and for what a policy's two rules decide, and makes a deposit.
const CLERK_LOOK: &str = "clerk show ann
explain ann orders note open
explain bob orders note open
deposit orders note d1 hi
list orders
";

/// What `CLERK_LOOK` prints with no clerk and no rule.
const NO_CLERK: &str = "answer no such clerk
answer deny by rule default
answer deny by rule default
answer new note.1
answer note.1 4
";

/// What `CLERK_LOOK` prints with the clerk's password.
const CLERK_ADDED: &str = "answer pass
answer deny by rule default
answer deny by rule default
answer new note.1
answer note.1 4
";

/// What `CLERK_LOOK` prints with the clerk's secret for APOP.
const CLERK_REPLACED: &str = "answer apop
answer deny by rule default
answer deny by rule default
answer new note.1
answer note.1 4
";

/// What `CLERK_LOOK` prints with the two rules.
const RULED: &str = "answer apop
answer allow by rule ann-all
answer allow by rule bob-open
answer new note.1
answer note.1 4
";

/// What `CLERK_LOOK` prints with the rules, after the clerk was dropped.
const CLERK_DROPPED: &str = "answer no such clerk
answer allow by rule ann-all
answer allow by rule bob-open
answer new note.1
answer note.1 4
";

/// A clerk and a policy, after an event that doesn't call the store.
static CLERK: [Act; 5] = [
    Act {
        line: "sessions",
        told: "answer\n",
        after: NO_CLERK,
    },
    Act {
        line: "clerk pass ann s3 cret",
        told: "answer added\n",
        after: CLERK_ADDED,
    },
    Act {
        line: "clerk apop ann tanstaaf",
        told: "answer replaced\n",
        after: CLERK_REPLACED,
    },
    Act {
        line: r#"policy [[rule]]\nname = "ann-all"\neffect = "allow"\nclerk = "ann"\nmaildrop = "orders"\nclass = "*"\nactions = ["open", "read", "remove"]\n[[rule]]\nname = "bob-open"\neffect = "allow"\nclerk = "bob"\nmaildrop = "orders"\nclass = "*"\nactions = ["open"]\n"#,
        told: "answer 2 rules\n",
        after: RULED,
    },
    Act {
        line: "clerk drop ann",
        told: "answer dropped\n",
        after: CLERK_DROPPED,
    },
];

/// Stops both files in turn in these acts, over the store that a transcript leaves.
fn expect_stops(
    alloc: Global,
    transcript: &str,
    acts: &'static [Act],
    look: &'static str,
    before: &'static str,
) -> Result<(), Fail> {
    let (script, want) = parts_of(alloc, transcript)?;
    let files = left_after(alloc, script.as_str(), want.as_str())?;
    let begun = held_in(&files);
    let row = Row {
        begun,
        acts,
        look,
        before,
    };
    expect_stopped_acts(alloc, &row)
}

/// Stops both files in turn in a row's acts. Fails unless the log stopped at least as many acts as
/// change what is held.
fn expect_stopped_acts(alloc: Global, row: &Row<'_>) -> Result<(), Fail> {
    let of_log = stops_in_acts(alloc, row, true)?;
    let of_db = stops_in_acts(alloc, row, false)?;
    if of_log.failed < changes(row) {
        return Err(Fail::new("an act wasn't stopped"));
    }
    Ok(())
}

/// Stops both files in turn in the opening of a store.
fn expect_stopped_openings(alloc: Global, row: &Row<'_>) -> Result<(), Fail> {
    let of_log = stops_from_opening(alloc, row, true)?;
    let of_db = stops_from_opening(alloc, row, false)?;
    if of_log.refused == 0 || of_db.refused == 0 {
        return Err(Fail::new("no opening was stopped"));
    }
    Ok(())
}

/// Stops in a deposit into a new store.
#[test]
fn stops_in_a_new_store(rt: HostRuntime) -> Result<(), Fail> {
    let row = Row {
        begun: NOTHING_HELD,
        acts: &DEPOSIT,
        look: LOOK,
        before: NOTHING,
    };
    expect_stopped_acts(rt.alloc(), &row)
}

/// Stops in the opening of a new store.
#[test]
fn stops_in_a_first_opening(rt: HostRuntime) -> Result<(), Fail> {
    let row = Row {
        begun: NOTHING_HELD,
        acts: &[],
        look: LOOK,
        before: NOTHING,
    };
    expect_stopped_openings(rt.alloc(), &row)
}

/// Stops in the opening of a store with records that are still only in the log.
#[test]
fn stops_in_an_opening(rt: HostRuntime) -> Result<(), Fail> {
    let alloc = rt.alloc();
    let (script, want) = parts_of(alloc, DEPOSITED)?;
    let files = left_after(alloc, script.as_str(), want.as_str())?;
    let begun = held_in(&files);
    let row = Row {
        begun,
        acts: &[],
        look: LOOK,
        before: MESSAGE,
    };
    expect_stopped_openings(alloc, &row)
}

#[test]
fn stops_in_clerks_and_a_policy(rt: HostRuntime) -> Result<(), Fail> {
    expect_stops(rt.alloc(), MAILDROP, &CLERK, CLERK_LOOK, NO_CLERK)
}

#[test]
fn stops_around_a_restart(rt: HostRuntime) -> Result<(), Fail> {
    expect_stops(
        rt.alloc(),
        SAMPLE,
        &RESTARTED,
        RESTARTED_LOOK,
        RESTARTED_BEFORE,
    )
}

#[test]
fn stops_in_a_pipelined_session(rt: HostRuntime) -> Result<(), Fail> {
    expect_stops(
        rt.alloc(),
        SAMPLE,
        &PIPELINED,
        PIPELINED_LOOK,
        PIPELINED_BEFORE,
    )
}

#[test]
fn stops_in_a_drop(rt: HostRuntime) -> Result<(), Fail> {
    expect_stops(rt.alloc(), MAILDROP, &DROP, LOOK, NO_MESSAGE)
}

/// Stops both files in turn while a store does what it put off. Fails unless some of these stops
/// were after its opening.
fn expect_maintained(alloc: Global, row: &Row<'_>) -> Result<(), Fail> {
    for is_log in [true, false] {
        if stops_in_maintenance(alloc, row, is_log)? == 0 {
            return Err(Fail::new("no stop"));
        }
    }
    Ok(())
}

#[test]
fn stops_while_the_log_is_copied(rt: HostRuntime) -> Result<(), Fail> {
    let alloc = rt.alloc();
    let (script, want) = parts_of(alloc, DEPOSITED)?;
    let files = left_after(alloc, script.as_str(), want.as_str())?;
    let row = Row {
        begun: held_in(&files),
        acts: &[],
        look: LOOK,
        before: MESSAGE,
    };
    expect_maintained(alloc, &row)
}
