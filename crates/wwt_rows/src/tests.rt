use crate::compare::{Ran, difference};
use crate::row::{Group, Row};
use std::alloc::Global;
use std::process::Abort;
use std::test::Fail;

/// The rows of a file whose one row says no more than this of what is wanted, if they can be read.
fn group_of(alloc: Global, wanted: &str) -> Result<Option<Group>, Fail> {
    let text = format!(in alloc; r#"{{"rows":[{{"name":"n","words":[],"wanted":{wanted}}}]}}"#)?;
    Ok(serde_json::from_str(alloc, &text).ok())
}

/// What is told of a command that ended by 3, put out two lines and told an error.
fn told(
    rt: &impl Abort,
    alloc: Global,
    row: &Row,
    difference_is: Option<&str>,
) -> Result<(), Fail> {
    let ran = Ran {
        status: 3,
        out: b"one\ntwo\n",
        err: b"bad\n",
    };
    let wanted = row.wanted.plain().map_err(|_| "a row that is refused")?;
    let found = difference(alloc, ran, &wanted).map_err(|_| "no memory")?;
    assert_eq!(rt; found.as_deref(), difference_is);
    Ok(())
}

/// What a row wants, and the difference that is told.
const TOLD: [(&str, Option<&str>); 12] = [
    (r#"{"status":3,"output":["one","two"],"error":"bad"}"#, None),
    (r#"{"status":3,"lines":["two"],"error":"bad"}"#, None),
    (r#"{"status":3,"lines":["one","two"],"error":"bad"}"#, None),
    (
        r#"{"status":0,"output":["one","two"],"error":"bad"}"#,
        Some("the status is 3, wanted 0"),
    ),
    (
        r#"{"status":3,"output":["one","two"]}"#,
        Some("line 1 of the error is bad, wanted "),
    ),
    (
        r#"{"status":3,"output":["one","two"],"error":"worse"}"#,
        Some("line 1 of the error is bad, wanted worse"),
    ),
    (
        r#"{"status":3,"output":["one","too"],"error":"bad"}"#,
        Some("line 2 of the output is two, wanted too"),
    ),
    (
        r#"{"status":3,"output":["one"],"error":"bad"}"#,
        Some("line 2 of the output is two, wanted "),
    ),
    (
        r#"{"status":3,"output":["one","two","three"],"error":"bad"}"#,
        Some("line 3 of the output is , wanted three"),
    ),
    (
        r#"{"status":3,"output":["one","two"],"cut":true,"error":"bad"}"#,
        Some("line 3 of the output is , wanted none"),
    ),
    (
        r#"{"status":3,"lines":["two","one"],"error":"bad"}"#,
        Some("the output has no line one here"),
    ),
    (
        r#"{"status":3,"lines":[""],"error":"bad"}"#,
        Some("the output has no line  here"),
    ),
];

#[test]
fn each_difference_is_told(rt: HostRuntime) -> Result<(), Fail> {
    let alloc = rt.alloc();
    for (wanted, difference_is) in TOLD {
        let group = group_of(alloc, wanted)?.ok_or("no rows")?;
        told(
            &rt,
            alloc,
            group.rows.first().ok_or("no row")?,
            difference_is,
        )?;
    }
    Ok(())
}

/// What no row may want, and what no row may say.
const REFUSED: [&str; 9] = [
    r#"{"status":0}"#,
    r#"{"status":0,"output":["a"],"lines":["a"]}"#,
    r#"{"status":0,"lines":[]}"#,
    r#"{"status":0,"lines":["a"],"cut":true}"#,
    r#"{"status":0,"output":[],"cut":true}"#,
    r#"{"output":[]}"#,
    r#"{"status":256,"output":[]}"#,
    r#"{"status":0,"output":[],"eror":"a"}"#,
    r#"{"status":0,"output":"a"}"#,
];

#[test]
fn bad_data_is_refused(rt: HostRuntime) -> Result<(), Fail> {
    for wanted in REFUSED {
        let is_taken = match group_of(rt.alloc(), wanted)? {
            Some(group) => group.rows.first().ok_or("no row")?.wanted.output().is_ok(),
            None => false,
        };
        assert!(rt; !is_taken, "{wanted}");
    }
    Ok(())
}
