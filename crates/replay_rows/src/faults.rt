//! Reads and writes that fail. Nothing is written where the first write fails.
use crate::row::{Fails, NO_FAILS, REPLAY, Row, check_failing};
use std::test::Fail;

const READ: Row = Row {
    name: "a read that fails",
    words: REPLAY,
    list: "",
    script: r#"{"do":"open","tab":1,"url":"https://a.test/"}
{"do":"get","tab":1,"key":"k"}
"#,
    out: "",
    err: "read fault\n",
    status: 6,
};

const WRITE: Row = Row {
    name: "a write that fails",
    err: "write fault\n",
    status: 7,
    ..READ
};

const WRITES: Row = Row {
    name: "a write that fails, and that of the fault line",
    err: "",
    ..WRITE
};

const ANSWER: Row = Row {
    name: "an answer whose second write fails",
    words: &["twin", "https://a.test", "LIST"],
    script: r#"{"do":"open","tab":1,"url":"https://a.test/"}
{"do":"set","tab":1,"key":"k","value":"v"}
{"do":"get","tab":1,"key":"k"}
===
{"do":"open","tab":2,"url":"https://b.test/"}
{"do":"open","tab":1,"url":"https://a.test/"}
{"do":"set","tab":2,"key":"k","value":"z"}
{"do":"set","tab":1,"key":"k","value":"v"}
{"do":"get","tab":1,"key":"k"}
"#,
    out: "{\"equal\":",
    ..WRITE
};

const UNREAD: Row = Row {
    name: "scripts whose first read fails",
    out: "",
    err: "read fault\n",
    status: 6,
    ..ANSWER
};

const SELFTEST: Row = Row {
    name: "the line of the self-test, whose first write fails",
    words: &["selftest", "7"],
    list: "..",
    script: "x",
    ..WRITE
};

const FAULTS: &[(Row, Fails)] = &[
    (
        READ,
        Fails {
            list: &[1],
            ..NO_FAILS
        },
    ),
    (
        READ,
        Fails {
            script: &[1],
            ..NO_FAILS
        },
    ),
    (
        READ,
        Fails {
            script: &[2],
            ..NO_FAILS
        },
    ),
    (
        WRITE,
        Fails {
            out: &[1],
            ..NO_FAILS
        },
    ),
    (
        WRITES,
        Fails {
            out: &[1],
            err: &[1],
            ..NO_FAILS
        },
    ),
    (
        ANSWER,
        Fails {
            out: &[2],
            ..NO_FAILS
        },
    ),
    (
        UNREAD,
        Fails {
            script: &[1],
            ..NO_FAILS
        },
    ),
    (
        SELFTEST,
        Fails {
            out: &[1],
            ..NO_FAILS
        },
    ),
];

#[test]
fn a_fault_is_named(rt: HostRuntime) -> Result<(), Fail> {
    let alloc = rt.alloc();
    for (row, fails) in FAULTS {
        check_failing(&rt, alloc, row, fails)?;
    }
    Ok(())
}
