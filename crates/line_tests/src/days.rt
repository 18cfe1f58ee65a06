//! Lines of a generated day, each against the text that another program wrote for it.
use crate::scripts::script_of;
use generated_day::generated_day;
use script_actions::Line;
use std::alloc::Global;
use std::test::Fail;

// The line of this number asks for what the text does.
fn has_line(alloc: Global, lines: &[Line], number: u32, text: &str) -> Result<bool, Fail> {
    let script = script_of(alloc, Vec::from_slice(alloc, text.as_bytes())?)?;
    let Some(read) = script.lines.first() else {
        return Ok(false);
    };
    Ok(
        lines
            .iter()
            .any(|line| line.number == number && line.step == read.step),
    )
}

// Lines of the day of seed 7, by their numbers.
const LINES: &[(u32, &str)] = &[
    (1, r#"{"do":"open","tab":1,"url":"https://s0.test/"}"#),
    (20, r#"{"do":"open","tab":20,"url":"https://s19.test/"}"#),
    (21, r#"{"do":"tick","s":8}"#),
    (
        22,
        r#"{"do":"frame","tab":15,"frame":1,"url":"https://w5.test/"}"#,
    ),
    (
        24,
        r#"{"do":"setcookie","tab":14,"text":"d3=30; Max-Age=1000"}"#,
    ),
    (29, r#"{"do":"get","tab":14,"key":"k0"}"#),
    (
        31,
        concat!(
            r#"{"do":"fetch","tab":11,"url":"https://w7.test/","#,
            r#""head":[["Set-Cookie","c5=1; Secure; SameSite=None; Partitioned; Max-Age=1000"]]}"#,
        ),
    ),
    (32, r#"{"do":"go","tab":13,"url":"https://s28.test/"}"#),
    (36, r#"{"do":"set","tab":14,"key":"k9","value":"v73"}"#),
    (
        52,
        r#"{"do":"set","tab":10,"area":"session","key":"k8","value":"v70"}"#,
    ),
    (
        5_019,
        r#"{"do":"setcookie","tab":3,"text":"d2=20; Max-Age=1000"}"#,
    ),
    (
        5_020,
        r#"{"do":"set","tab":20,"area":"session","key":"k6","value":"v75"}"#,
    ),
];

#[test]
fn lines_of_a_generated_day(rt: HostRuntime) -> Result<(), Fail> {
    let alloc = rt.alloc();
    let lines = generated_day(alloc, 7)?;
    assert!(rt; lines.len() == 5_020);
    for (number, text) in LINES {
        assert!(rt; has_line(alloc, &lines, *number, text)?, "{number}");
    }
    Ok(())
}
