//! Texts that are audited.

use crate::examples::TEXTS;
use sql_dialect::Dialect;
use sql_test_kit::is;
use sql_tool_audit::audit_line;
use sql_tool_document::read_texts;
use std::alloc::Global;
use std::test::Fail;

pub(crate) fn every_call(alloc: Global) -> Result<(), Fail> {
    let read = read_texts(alloc, TEXTS.as_bytes())?;
    let text = read.texts.as_slice().first().ok_or("no text")?;
    let line = audit_line(alloc, Dialect::Pg, &read.schema, text.as_str())?;
    is(
        line.as_str()
            == "{\"columns\":[[\"users\",\"id\"]],\"sources\":[0],\"tables\":[\"users\"]}\n",
        "what a text uses",
    )
}
