//! Requests whose names, lists, nesting and chains of calls a careless builder would let through.

use sql_build_depth::MAX_DEPTH;
use sql_tool_run::{Status, run};
use sql_tool_stream::{MemorySink, SureSource};
use std::alloc::{AllocError, Global};
use std::num::NonZeroUsize;
use std::test::Fail;

/// Names that hold quotes, placeholders and SQL, and lists that hold nothing.
const NAMES: &str = r#"{"schema":{"tables":[
  {"name":"e","sql_name":"","columns":[{"name":"id","type":"Integer"}]},
  {"name":"p","sql_name":"$1","columns":[{"name":"id","type":"Integer"}]},
  {"name":"a","sql_name":"@p1","columns":[{"name":"id","type":"Integer"}]},
  {"name":"m","sql_name":"?","columns":[{"name":"id","type":"Integer"}]},
  {"name":"t","sql_name":"a`b","columns":[{"name":"id","type":"Integer"}]},
  {"name":"k","sql_name":"a]b","columns":[{"name":"id","type":"Integer"}]},
  {"name":"x","sql_name":"\"`[]","columns":[{"name":"id","type":"Integer"}]},
  {"name":"foo","columns":[{"name":"id","sql_name":"x\" FROM \"y","type":"Integer"}]},
  {"name":"bars","schema":"foo","columns":[{"name":"id","type":"Integer"},{"name":"baz","type":"Text"}]},
  {"name":"users","columns":[{"name":"id","type":"Integer"},{"name":"name","type":"Text"}]},
  {"name":"posts","columns":[{"name":"id","type":"Integer"},{"name":"user_id","type":"Integer"},{"name":"title","type":"Text"}]}],
  "joinable":[{"child":"posts","key":"user_id","parent":"users"}],
  "together":[["users","posts"]]},
"requests":[
  {"dialect":"Pg","query":{"from":{"table":"e"}}},
  {"dialect":"Pg","query":{"from":{"table":"p"}}},
  {"dialect":"Pg","query":{"from":{"table":"foo"}}},
  {"dialect":"Mysql","query":{"from":{"table":"t"}}},
  {"dialect":"Pg","query":{"from":{"table":"bars"},"calls":[["inner_join",{"alias":"foo.bars","of":"bars"},{"eq":[{"col":["bars","id"]},{"field":["foo.bars","bars","id"]}]}],["select",{"col":["bars","id"]}]]}},
  {"dialect":"Pg","query":{"from":{"alias":"a","of":"users"},"calls":[["inner_join",{"alias":"a","of":"posts"}]]}},
  {"dialect":"Pg","query":{"from":{"alias":"a","of":"users"},"calls":[["inner_join",{"alias":"a","of":"users"},{"eq":[{"field":["a","users","id"]},{"field":["a","users","id"]}]}]]}},
  {"dialect":"Pg","query":{"from":{"table":"users"},"calls":[["select",[{"col":["users","id"]},[{"col":["users","name"]},[]]]]]}},
  {"dialect":"Pg","query":{"from":{"table":"users"},"calls":[["select",[[],[]]]]}},
  {"dialect":"Pg","query":{"from":{"table":"users"},"calls":[["order",[]]]}},
  {"dialect":"Pg","query":{"from":{"table":"users"},"calls":[["order",[[]]]]}},
  {"dialect":"Pg","query":{"from":{"table":"users"},"calls":[["group_by",[]]]}},
  {"dialect":"Pg","query":{"from":{"table":"users"},"calls":[["distinct_on",[]]]}},
  {"dialect":"Pg","query":{"from":{"table":"users"},"calls":[["find",[]]]}},
  {"dialect":"Pg","query":{"from":{"table":"users"},"calls":[["filter",{"eq":[{"col":["users","id"]},{"bind":["Integer",null]}]}]]}},
  {"dialect":"Pg","query":{"from":{"table":"x"}}},
  {"dialect":"Mysql","query":{"from":{"table":"x"}}},
  {"dialect":"Sqlite","query":{"from":{"table":"x"}}},
  {"dialect":"Bracket","query":{"from":{"table":"x"}}},
  {"dialect":"Bracket","query":{"from":{"table":"k"}}},
  {"dialect":"Bracket","query":{"from":{"table":"e"}}},
  {"dialect":"Bracket","query":{"from":{"table":"a"}}},
  {"dialect":"Sqlite","query":{"from":{"table":"m"}}},
  {"dialect":"Sqlite","query":{"from":{"table":"foo"}}}]}"#;

const NAMES_WRITTEN: &str =
    r#"{"binds":[],"columns":["Integer"],"id":1,"safe":true,"sql":"SELECT \"\".\"id\" FROM \"\""}
{"binds":[],"columns":["Integer"],"id":2,"safe":true,"sql":"SELECT \"$1\".\"id\" FROM \"$1\""}
{"binds":[],"columns":["Integer"],"id":3,"safe":true,"sql":"SELECT \"foo\".\"x\"\" FROM \"\"y\" FROM \"foo\""}
{"binds":[],"columns":["Integer"],"id":4,"safe":true,"sql":"SELECT `a``b`.`id` FROM `a``b`"}
{"binds":[],"columns":["Integer"],"id":5,"safe":true,"sql":"SELECT \"foo\".\"bars\".\"id\" FROM (\"foo\".\"bars\" INNER JOIN \"foo\".\"bars\" AS \"foo.bars\" ON (\"foo\".\"bars\".\"id\" = \"foo.bars\".\"id\"))"}
{"refused":"NameClash"}
{"refused":"Ambiguous"}
{"binds":[],"columns":["Integer","Text"],"id":8,"safe":true,"sql":"SELECT \"users\".\"id\", \"users\".\"name\" FROM \"users\""}
{"refused":"EmptyList"}
{"refused":"EmptyList"}
{"refused":"EmptyList"}
{"refused":"EmptyList"}
{"refused":"EmptyList"}
{"refused":"TypeMismatch"}
{"refused":"TypeMismatch"}
{"binds":[],"columns":["Integer"],"id":16,"safe":true,"sql":"SELECT \"\"\"`[]\".\"id\" FROM \"\"\"`[]\""}
{"binds":[],"columns":["Integer"],"id":17,"safe":true,"sql":"SELECT `\"``[]`.`id` FROM `\"``[]`"}
{"binds":[],"columns":["Integer"],"id":18,"safe":true,"sql":"SELECT `\"``[]`.`id` FROM `\"``[]`"}
{"binds":[],"columns":["Integer"],"id":19,"safe":true,"sql":"SELECT [\"`[]]].[id] FROM [\"`[]]]"}
{"binds":[],"columns":["Integer"],"id":20,"safe":true,"sql":"SELECT [a]]b].[id] FROM [a]]b]"}
{"binds":[],"columns":["Integer"],"id":21,"safe":true,"sql":"SELECT [].[id] FROM []"}
{"binds":[],"columns":["Integer"],"id":22,"safe":true,"sql":"SELECT [@p1].[id] FROM [@p1]"}
{"binds":[],"columns":["Integer"],"id":23,"safe":true,"sql":"SELECT `?`.`id` FROM `?`"}
{"binds":[],"columns":["Integer"],"id":24,"safe":true,"sql":"SELECT `foo`.`x\" FROM \"y` FROM `foo`"}
"#;

/// Two tables of which one's path is the end of the other's.
const SUFFIX: &str = r#"{"schema":{"tables":[
  {"name":"p","sql_name":"bars","columns":[{"name":"id","type":"Integer"}]},
  {"name":"b","sql_name":"bars","schema":"foo","columns":[{"name":"id","type":"Integer"}]}],
  "together":[["p","b"]]},
"requests":[
  {"dialect":"Pg","query":{"from":{"table":"p"},"calls":[["inner_join",{"table":"b"},{"eq":[{"col":["p","id"]},{"col":["b","id"]}]}]]}}]}"#;

const SUFFIX_WRITTEN: &str = "{\"refused\":\"NameClash\"}\n";

/// The text before the condition in a document of one filter. `AFTER` is the text after it.
const BEFORE: &str =
    r#"{"schema":{"tables":[{"name":"users","columns":[{"name":"id","type":"Integer"},{"name":"name","type":"Text"}]}]},
"requests":[{"dialect":"Pg","query":{"from":{"table":"users"},"calls":[["filter","#;

const CONDITION: &str = r#"{"eq":[{"col":["users","id"]},{"bind":["Integer",1]}]}"#;

const AFTER: &str = "]]}}]}";

const LINE_BEFORE: &str =
    r#"{"binds":[["Integer",1]],"columns":["Integer","Text"],"id":1,"safe":true,"sql":"SELECT \"users\".\"id\", \"users\".\"name\" FROM \"users\" WHERE "#;

const LINE_CONDITION: &str = r#"(\"users\".\"id\" = $1)"#;

const LINE_AFTER: &str = "\"}\n";

/// How a run of `build` over this document ends, and what it writes.
fn built(alloc: Global, document: &str) -> Result<(Status, MemorySink), AllocError> {
    let words = vec![in alloc; String::from_str(alloc, "build")?]?;
    let mut source = SureSource::new(Vec::from_slice(alloc, document.as_bytes())?);
    let mut sink = MemorySink::new(alloc, 1000000, NonZeroUsize::MAX, Vec::new(alloc))?;
    let status = run(alloc, words.as_slice(), &mut source, &mut sink);
    Ok((status, sink))
}

/// Whether the run ends Done and writes this text.
fn writes(alloc: Global, document: &str, wanted: &str) -> Result<bool, AllocError> {
    let (status, sink) = built(alloc, document)?;
    Ok(status == Status::Done && sink.bytes() == wanted.as_bytes())
}

/// The text between what is so many times before and after it.
fn within(
    alloc: Global,
    times: usize,
    before: &str,
    text: &str,
    after: &str,
) -> Result<String, AllocError> {
    let mut all = String::new(alloc);
    for _ in 0..times {
        all.push_str(before)?;
    }
    all.push_str(text)?;
    for _ in 0..times {
        all.push_str(after)?;
    }
    Ok(all)
}

/// The document whose filter has so many `not` around its comparison.
fn nested(alloc: Global, times: usize) -> Result<String, AllocError> {
    let condition = within(alloc, times, "{\"not\":", CONDITION, "}")?;
    let mut document = String::from_str(alloc, BEFORE)?;
    document.push_str(condition.as_str())?;
    document.push_str(AFTER)?;
    Ok(document)
}

/// The line that answers it.
fn nested_line(alloc: Global, times: usize) -> Result<String, AllocError> {
    let condition = within(alloc, times, "NOT (", LINE_CONDITION, ")")?;
    let mut line = String::from_str(alloc, LINE_BEFORE)?;
    line.push_str(condition.as_str())?;
    line.push_str(LINE_AFTER)?;
    Ok(line)
}

/// The document of a statement with so many filters, and one more.
fn filtered(alloc: Global, times: usize) -> Result<String, AllocError> {
    let mut document = String::from_str(alloc, BEFORE)?;
    for _ in 0..times {
        document.push_str(CONDITION)?;
        document.push_str("],[\"filter\",")?;
    }
    document.push_str(CONDITION)?;
    document.push_str(AFTER)?;
    Ok(document)
}

#[test]
fn chains_end(rt: HostRuntime) -> Result<(), Fail> {
    let alloc = rt.alloc();
    // A filter is a level of the statement; the query, a comparison and its sides are three.
    let deepest = filtered(alloc, MAX_DEPTH - 4)?;
    let (status, sink) = built(alloc, deepest.as_str())?;
    assert_eq!(rt; status, Status::Done);
    assert!(rt; !sink.bytes().is_empty());
    let deeper = filtered(alloc, MAX_DEPTH - 3)?;
    let (status, sink) = built(alloc, deeper.as_str())?;
    assert_eq!(rt; status, Status::NoMemory);
    assert!(rt; sink.bytes().is_empty());
    Ok(())
}

#[test]
fn hostile_rows(rt: HostRuntime) -> Result<(), Fail> {
    let alloc = rt.alloc();
    assert!(rt; writes(alloc, NAMES, NAMES_WRITTEN)?);
    assert!(rt; writes(alloc, SUFFIX, SUFFIX_WRITTEN)?);
    // 117 levels of `not` are 127 of JSON, as many as a document may have.
    let deepest = nested(alloc, 117)?;
    let line = nested_line(alloc, 117)?;
    assert!(rt; writes(alloc, deepest.as_str(), line.as_str())?);
    let deeper = nested(alloc, 118)?;
    let (status, sink) = built(alloc, deeper.as_str())?;
    assert_eq!(rt; status, Status::BadDocument);
    assert!(rt; sink.bytes().is_empty());
    Ok(())
}
