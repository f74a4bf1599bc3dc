use sql_tool_run::{Status, run};
use sql_tool_stream::{MemorySink, MemorySource, SureSink, SureSource};
use std::alloc::{AllocError, Global};
use std::num::NonZeroUsize;
use std::test::Fail;

/// One table, and a filter on it.
const INPUT: &str =
    "{\"schema\":{\"tables\":[{\"name\":\"foo\",\"columns\":[{\"name\":\"id\",\"type\":\"Integer\"},{\"name\":\"mytype\",\"sql_name\":\"type\",\"type\":\"Integer\"},{\"name\":\"hey\",\"sql_name\":\"bleh\",\"type\":\"Integer\"}]}]},\"requests\":[{\"dialect\":\"Pg\",\"query\":{\"from\":{\"table\":\"foo\"},\"calls\":[[\"filter\",{\"eq\":[{\"col\":[\"foo\",\"mytype\"]},{\"bind\":[\"Integer\",1]}]}]]}}]}";

const OUTPUT: &str =
    "{\"binds\":[[\"Integer\",1]],\"columns\":[\"Integer\",\"Integer\",\"Integer\"],\"id\":1,\"safe\":true,\"sql\":\"SELECT \\\"foo\\\".\\\"id\\\", \\\"foo\\\".\\\"type\\\", \\\"foo\\\".\\\"bleh\\\" FROM \\\"foo\\\" WHERE (\\\"foo\\\".\\\"type\\\" = $1)\"}\n";

/// The summary of three generated requests.
const GENERATED: &str =
    "{\"accepted\":3,\"binds\":3,\"bytes\":220,\"ids\":3,\"refused\":{},\"requests\":3}\n";

const READ: &str = "{\"placeholders\":1,\"sql\":\"SELECT (\\\"a\\\".\\\"x\\\" = $7)\"}\n";

const NOT_READ: &str = "{\"refused\":\"NotInGrammar\"}\n";

fn words(alloc: Global, words: &[&str]) -> Result<Vec<String>, AllocError> {
    let mut all = Vec::new(alloc);
    for word in words {
        all.push(String::from_str(alloc, *word)?)?;
    }
    Ok(all)
}

fn source(alloc: Global, failing: Vec<u64>) -> Result<MemorySource, AllocError> {
    let bytes = Vec::from_slice(alloc, INPUT.as_bytes())?;
    Ok(MemorySource::new(bytes, NonZeroUsize::MIN, failing))
}

fn status(alloc: Global, text: &str) -> Result<Status, AllocError> {
    let mut from = SureSource::new(Vec::from_slice(alloc, text.as_bytes())?);
    Ok(run(
        alloc,
        &words(alloc, &["build"])?,
        &mut from,
        &mut SureSink::new(),
    ))
}

#[test]
fn one_byte_at_a_time(rt: HostRuntime) -> Result<(), Fail> {
    let alloc = rt.alloc();
    let mut from = source(alloc, Vec::new(alloc))?;
    let mut to = MemorySink::new(alloc, 1000, NonZeroUsize::MIN, Vec::new(alloc))?;
    assert_eq!(rt;
        run(alloc, &words(alloc, &["build"])?, &mut from, &mut to),
        Status::Done
    );
    assert_eq!(rt; to.bytes(), OUTPUT.as_bytes());
    Ok(())
}

#[test]
fn each_read_fails_in_turn(rt: HostRuntime) -> Result<(), Fail> {
    let alloc = rt.alloc();
    let build = words(alloc, &["build"])?;
    // A call for each byte, one that finds the end, and one that is never made.
    for call in 1..INPUT.len() as u64 + 3 {
        let mut from = source(alloc, vec![in alloc; call]?)?;
        let mut to = MemorySink::new(alloc, 1000, NonZeroUsize::MIN, Vec::new(alloc))?;
        let (want, written) = if call < INPUT.len() as u64 + 2 {
            (Status::ReadFault, "")
        } else {
            (Status::Done, OUTPUT)
        };
        assert_eq!(rt; run(alloc, &build, &mut from, &mut to), want);
        assert_eq!(rt; to.bytes(), written.as_bytes());
    }
    Ok(())
}

#[test]
fn each_write_fails_in_turn(rt: HostRuntime) -> Result<(), Fail> {
    let alloc = rt.alloc();
    let build = words(alloc, &["build"])?;
    for written in 0..OUTPUT.len() {
        let mut from = source(alloc, Vec::new(alloc))?;
        let failing = vec![in alloc; written as u64 + 1]?;
        let mut to = MemorySink::new(alloc, 1000, NonZeroUsize::MIN, failing)?;
        assert_eq!(rt; run(alloc, &build, &mut from, &mut to), Status::WriteFault);
        assert_eq!(rt; to.bytes(), &OUTPUT.as_bytes()[..written]);
    }
    Ok(())
}

#[test]
fn a_full_sink_fails(rt: HostRuntime) -> Result<(), Fail> {
    let alloc = rt.alloc();
    let mut from = source(alloc, Vec::new(alloc))?;
    let mut to = MemorySink::new(alloc, 10, NonZeroUsize::MAX, Vec::new(alloc))?;
    assert_eq!(rt;
        run(alloc, &words(alloc, &["build"])?, &mut from, &mut to),
        Status::WriteFault
    );
    assert_eq!(rt; to.bytes(), &OUTPUT.as_bytes()[..10]);
    Ok(())
}

fn status_of_words(alloc: Global, told: &[&str]) -> Result<Status, AllocError> {
    let mut from = source(alloc, Vec::new(alloc))?;
    Ok(run(alloc, &words(alloc, told)?, &mut from, &mut SureSink::new()))
}

#[test]
fn words_that_are_no_command(rt: HostRuntime) -> Result<(), Fail> {
    let alloc = rt.alloc();
    assert_eq!(rt; status_of_words(alloc, &[])?, Status::Usage);
    assert_eq!(rt; status_of_words(alloc, &["Build"])?, Status::Usage);
    assert_eq!(rt; status_of_words(alloc, &["build", "x"])?, Status::Usage);
    assert_eq!(rt; status_of_words(alloc, &["--help"])?, Status::Usage);
    assert_eq!(rt; status_of_words(alloc, &["build"])?, Status::Done);
    assert_eq!(rt; status_of_words(alloc, &["generate"])?, Status::Usage);
    assert_eq!(rt;
        status_of_words(alloc, &["generate", "007"])?,
        Status::Usage
    );
    assert_eq!(rt; status_of_words(alloc, &["generate", "+7"])?, Status::Usage);
    assert_eq!(rt;
        status_of_words(alloc, &["generate", "100001"])?,
        Status::Usage
    );
    assert_eq!(rt; status_of_words(alloc, &["generate", "0"])?, Status::Done);
    assert_eq!(rt; status_of_words(alloc, &["read"])?, Status::Usage);
    assert_eq!(rt; status_of_words(alloc, &["read", "pg"])?, Status::Usage);
    assert_eq!(rt; status_of_words(alloc, &["read", "Pg"])?, Status::Done);
    assert_eq!(rt; status_of_words(alloc, &["audit", "pg"])?, Status::Usage);
    assert_eq!(rt;
        status_of_words(alloc, &["audit", "Pg"])?,
        Status::BadDocument
    );
    Ok(())
}

#[test]
fn sizes(rt: HostRuntime) -> Result<(), Fail> {
    let alloc = rt.alloc();
    let build = words(alloc, &["build"])?;
    let mut large = SureSource::new(vec![in alloc; b' '; 16777217]?);
    assert_eq!(rt;
        run(alloc, &build, &mut large, &mut SureSink::new()),
        Status::TooLarge
    );
    let mut full = SureSource::new(vec![in alloc; b' '; 16777216]?);
    assert_eq!(rt;
        run(alloc, &build, &mut full, &mut SureSink::new()),
        Status::BadDocument
    );
    Ok(())
}

#[test]
fn documents(rt: HostRuntime) -> Result<(), Fail> {
    let alloc = rt.alloc();
    for (text, want) in [
        ("{\"schema\":{\"tables\":[]},\"requests\":[]}", Status::Done),
        (
            "{\"schema\":{\"tables\":[]},\"requests\":[],\"x\":18446744073709551615}",
            Status::Done,
        ),
        (
            "{\"schema\":{\"tables\":[]},\"requests\":[],\"x\":18446744073709551616}",
            Status::BadDocument,
        ),
        (
            "{\"schema\":{\"tables\":[]},\"requests\":[],\"x\":1.0}",
            Status::BadDocument,
        ),
        (
            "{\"schema\":{\"tables\":[]},\"requests\":{}}",
            Status::BadDocument,
        ),
        (
            "{\"schema\":{\"tables\":[]},\"requests\":[1]}",
            Status::BadDocument,
        ),
        (
            "{\"schema\":{\"tables\":[],\"joinable\":[],\"together\":[]},\"requests\":[]}",
            Status::Done,
        ),
        (
            "{\"schema\":{\"tables\":[],\"together\":[[\"a\",\"b\"]]},\"requests\":[]}",
            Status::BadDocument,
        ),
        (
            "{\"schema\":{\"tables\":[{\"name\":\"t\",\"columns\":[]}]},\"requests\":[]}",
            Status::BadDocument,
        ),
        (
            "{\"schema\":{\"tables\":[]},\"requests\":[{\"dialect\":\"Pg\",\"query\":{\"from\":{\"table\":\"t\"},\"calls\":[[\"limit\",1]]}}]}",
            Status::Done,
        ),
        (
            "{\"schema\":{\"tables\":[]},\"requests\":[{\"dialect\":\"Pg\",\"query\":{\"from\":{\"table\":\"t\"},\"calls\":[[\"having\",1]]}}]}",
            Status::BadDocument,
        ),
        (
            "{\"schema\":{\"tables\":[]},\"requests\":[{\"dialect\":\"Pg\",\"query\":{\"from\":{\"table\":\"t\"},\"calls\":[[\"filter\",{\"eq\":[{\"col\":[\"t\",\"b\"]},{\"bind\":[\"Binary\",\"0a\"]}]}]]}}]}",
            Status::Done,
        ),
        (
            "{\"schema\":{\"tables\":[]},\"requests\":[{\"dialect\":\"Pg\",\"query\":{\"from\":{\"table\":\"t\"},\"calls\":[[\"filter\",{\"eq\":[{\"col\":[\"t\",\"b\"]},{\"bind\":[\"Binary\",\"0\"]}]}]]}}]}",
            Status::BadDocument,
        ),
        ("", Status::BadDocument),
    ] {
        assert_eq!(rt; status(alloc, text)?, want, "{text}");
    }
    Ok(())
}

/// How a run with these words over this input ends, and what it writes.
fn answered(
    alloc: Global,
    told: &[&str],
    input: &[u8],
) -> Result<(Status, MemorySink), AllocError> {
    let mut from = SureSource::new(Vec::from_slice(alloc, input)?);
    let mut to = MemorySink::new(alloc, 1000, NonZeroUsize::MAX, Vec::new(alloc))?;
    let status = run(alloc, &words(alloc, told)?, &mut from, &mut to);
    Ok((status, to))
}

#[test]
fn generated_requests(rt: HostRuntime) -> Result<(), Fail> {
    let alloc = rt.alloc();
    // Each read of this source would fail: none is tried.
    let mut from = source(alloc, vec![in alloc; 1]?)?;
    let mut to = MemorySink::new(alloc, 1000, NonZeroUsize::MIN, Vec::new(alloc))?;
    let generate = words(alloc, &["generate", "3"])?;
    assert_eq!(rt; run(alloc, &generate, &mut from, &mut to), Status::Done);
    assert_eq!(rt; to.bytes(), GENERATED.as_bytes());
    Ok(())
}

#[test]
fn texts(rt: HostRuntime) -> Result<(), Fail> {
    let alloc = rt.alloc();
    for (dialect, text, line) in [
        ("Pg", "SELECT   ( \"a\".\"x\"=$7 )", READ),
        ("Pg", "SELECT   ( \"a\".\"x\"=$7 )\n", READ),
        ("Pg", "SELECT \"a\".\"x\"\n\n", NOT_READ),
        ("Mysql", "SELECT   ( \"a\".\"x\"=$7 )", NOT_READ),
        ("Pg", "SELECT $01", NOT_READ),
        ("Pg", "", NOT_READ),
        ("Sqlite", "", NOT_READ),
    ] {
        let (status, to) = answered(alloc, &["read", dialect], text.as_bytes())?;
        assert_eq!(rt; status, Status::Done, "{text}");
        assert_eq!(rt; to.bytes(), line.as_bytes(), "{text}");
    }
    let (status, to) = answered(alloc, &["read", "Pg"], b"SELECT \"\xff\".\"x\"")?;
    assert_eq!(rt; status, Status::BadDocument);
    assert!(rt; to.bytes().is_empty());
    Ok(())
}

/// A schema, a text over it, and a text that is none.
const TEXTS: &str =
    "{\"schema\":{\"tables\":[{\"name\":\"users\",\"columns\":[{\"name\":\"id\",\"type\":\"Integer\"}]}]},\"texts\":[\"SELECT \\\"users\\\".\\\"id\\\" FROM \\\"users\\\"\",\"x\"]}";

const AUDITED: &str =
    "{\"columns\":[[\"users\",\"id\"]],\"sources\":[0],\"tables\":[\"users\"]}\n{\"refused\":\"NotInGrammar\"}\n";

#[test]
fn audited_texts(rt: HostRuntime) -> Result<(), Fail> {
    let alloc = rt.alloc();
    let (status, to) = answered(alloc, &["audit", "Pg"], TEXTS.as_bytes())?;
    assert_eq!(rt; status, Status::Done);
    assert_eq!(rt; to.bytes(), AUDITED.as_bytes());
    let (status, to) = answered(alloc, &["audit", "Mysql"], INPUT.as_bytes())?;
    assert_eq!(rt; status, Status::BadDocument);
    assert!(rt; to.bytes().is_empty());
    Ok(())
}

/// A tenant's posts, and how many there are.
const TENANT: &str =
    "{\"schema\":{\"tables\":[{\"name\":\"posts\",\"columns\":[{\"name\":\"id\",\"type\":\"Integer\"},{\"name\":\"user_id\",\"type\":\"Integer\"}]}]},\"requests\":[{\"dialect\":\"Sqlite\",\"query\":{\"from\":{\"table\":\"posts\"}}},{\"dialect\":\"Pg\",\"query\":{\"from\":{\"table\":\"posts\"},\"calls\":[[\"select\",\"count_star\"]]}}],\"guard\":{\"table\":\"posts\",\"predicate\":{\"eq\":[{\"col\":[\"posts\",\"user_id\"]},{\"bind\":[\"Integer\",7]}]}}}";

const GUARDED: &str =
    "{\"binds\":[[\"Integer\",7]],\"columns\":[\"Integer\",\"Integer\"],\"id\":1,\"safe\":true,\"sql\":\"SELECT `posts`.`id`, `posts`.`user_id` FROM `posts` WHERE (`posts`.`user_id` = ?)\"}\n{\"refused\":\"OutOfKind\"}\n";

#[test]
fn guarded_requests(rt: HostRuntime) -> Result<(), Fail> {
    let alloc = rt.alloc();
    let (status, to) = answered(alloc, &["guard"], TENANT.as_bytes())?;
    assert_eq!(rt; status, Status::Done);
    assert_eq!(rt; to.bytes(), GUARDED.as_bytes());
    let (status, to) = answered(alloc, &["guard"], INPUT.as_bytes())?;
    assert_eq!(rt; status, Status::BadDocument);
    assert!(rt; to.bytes().is_empty());
    Ok(())
}
