//! Inputs and their answers, of `examples/`.

/// A table, and a filter on it: `examples/filter.json`.
pub(crate) const FILTER: &str =
    r#"{"schema":{"tables":[{"name":"foo","columns":[{"name":"id","type":"Integer"},{"name":"mytype","sql_name":"type","type":"Integer"},{"name":"hey","sql_name":"bleh","type":"Integer"}]}]},"requests":[{"dialect":"Pg","query":{"from":{"table":"foo"},"calls":[["filter",{"eq":[{"col":["foo","mytype"]},{"bind":["Integer",1]}]}]]}}]}"#;

pub(crate) const FILTERED: &str =
    "{\"binds\":[[\"Integer\",1]],\"columns\":[\"Integer\",\"Integer\",\"Integer\"],\"id\":1,\"safe\":true,\"sql\":\"SELECT \\\"foo\\\".\\\"id\\\", \\\"foo\\\".\\\"type\\\", \\\"foo\\\".\\\"bleh\\\" FROM \\\"foo\\\" WHERE (\\\"foo\\\".\\\"type\\\" = $1)\"}\n";

/// The same request and another, without the table.
pub(crate) const MORE: &str =
    r#"{"schema":{"tables":[]},"requests":[{"dialect":"Pg","query":{"from":{"table":"foo"},"calls":[["filter",{"eq":[{"col":["foo","mytype"]},{"bind":["Integer",1]}]}]]}},{"dialect":"Sqlite","query":{"from":{"table":"foo"}}}]}"#;

/// Their lines after those of the first document: the shape of the second is new.
pub(crate) const MORE_LINES: &str =
    "{\"binds\":[[\"Integer\",1]],\"columns\":[\"Integer\",\"Integer\",\"Integer\"],\"id\":1,\"safe\":true,\"sql\":\"SELECT \\\"foo\\\".\\\"id\\\", \\\"foo\\\".\\\"type\\\", \\\"foo\\\".\\\"bleh\\\" FROM \\\"foo\\\" WHERE (\\\"foo\\\".\\\"type\\\" = $1)\"}\n{\"binds\":[],\"columns\":[\"Integer\",\"Integer\",\"Integer\"],\"id\":3,\"safe\":true,\"sql\":\"SELECT `foo`.`id`, `foo`.`type`, `foo`.`bleh` FROM `foo`\"}\n";

/// Their lines in a session that has begun anew: the first and the second of all requests.
pub(crate) const ANEW_LINES: &str =
    "{\"binds\":[[\"Integer\",1]],\"columns\":[\"Integer\",\"Integer\",\"Integer\"],\"id\":1,\"safe\":true,\"sql\":\"SELECT \\\"foo\\\".\\\"id\\\", \\\"foo\\\".\\\"type\\\", \\\"foo\\\".\\\"bleh\\\" FROM \\\"foo\\\" WHERE (\\\"foo\\\".\\\"type\\\" = $1)\"}\n{\"binds\":[],\"columns\":[\"Integer\",\"Integer\",\"Integer\"],\"id\":2,\"safe\":true,\"sql\":\"SELECT `foo`.`id`, `foo`.`type`, `foo`.`bleh` FROM `foo`\"}\n";

/// Their lines after those of the first document, where one shape alone is kept: the first one's was forgotten.
pub(crate) const FORGOTTEN_LINES: &str =
    "{\"binds\":[[\"Integer\",1]],\"columns\":[\"Integer\",\"Integer\",\"Integer\"],\"id\":2,\"safe\":true,\"sql\":\"SELECT \\\"foo\\\".\\\"id\\\", \\\"foo\\\".\\\"type\\\", \\\"foo\\\".\\\"bleh\\\" FROM \\\"foo\\\" WHERE (\\\"foo\\\".\\\"type\\\" = $1)\"}\n{\"binds\":[],\"columns\":[\"Integer\",\"Integer\",\"Integer\"],\"id\":3,\"safe\":true,\"sql\":\"SELECT `foo`.`id`, `foo`.`type`, `foo`.`bleh` FROM `foo`\"}\n";

/// Texts over the filter's table, without it, and one of a table that is not there.
pub(crate) const MORE_TEXTS: &str =
    r#"{"schema":{"tables":[]},"texts":["SELECT \"foo\".\"id\" FROM \"foo\"","SELECT \"x\".\"id\" FROM \"x\""]}"#;

pub(crate) const MORE_AUDITED: &str =
    "{\"columns\":[[\"foo\",\"id\"]],\"sources\":[0],\"tables\":[\"foo\"]}\n{\"refused\":\"UnknownTable\"}\n";

/// A tenant's posts, of `examples/guard.json`.
pub(crate) const GUARD: &str =
    r#"{"schema":{"tables":[{"name":"posts","columns":[{"name":"id","type":"Integer"},{"name":"user_id","type":"Integer"},{"name":"title","type":"Text"}]}]},"guard":{"table":"posts","predicate":{"eq":[{"col":["posts","user_id"]},{"bind":["Integer",7]}]}},"requests":[{"dialect":"Sqlite","query":{"from":{"alias":"p","of":"posts"},"calls":[["select",{"field":["p","posts","title"]}]]}}]}"#;

pub(crate) const GUARDED: &str =
    "{\"binds\":[[\"Integer\",7]],\"columns\":[\"Text\"],\"id\":1,\"safe\":true,\"sql\":\"SELECT `p`.`title` FROM `posts` AS `p` WHERE (`p`.`user_id` = ?)\"}\n";

/// `examples/spaces.Pg.sql`.
pub(crate) const TEXT: &str = "SELECT   ( \"a\".\"x\"=$7 )";

pub(crate) const READ: &str =
    "{\"placeholders\":1,\"sql\":\"SELECT (\\\"a\\\".\\\"x\\\" = $7)\"}\n";

/// Texts over a table, one of a table that is not there.
pub(crate) const TEXTS: &str =
    r#"{"schema":{"tables":[{"name":"users","columns":[{"name":"id","type":"Integer"}]}]},"texts":["SELECT \"users\".\"id\" FROM \"users\"","SELECT \"x\".\"id\" FROM \"x\""]}"#;

pub(crate) const AUDITED: &str =
    "{\"columns\":[[\"users\",\"id\"]],\"sources\":[0],\"tables\":[\"users\"]}\n{\"refused\":\"UnknownTable\"}\n";

/// A document of 38 bytes that asks for nothing.
pub(crate) const NOTHING: &str = r#"{"schema":{"tables":[]},"requests":[]}"#;

/// Opens a session with policies for the tenant 7, and asks for their posts. Of invoices nothing is said.
pub(crate) const OPEN_TENANTS: &str =
    r#"{"schema":{"tables":[{"name":"posts","columns":[{"name":"id","type":"Integer"},{"name":"tenant","type":"Integer"},{"name":"title","type":"Text"}]},{"name":"countries","columns":[{"name":"id","type":"Integer"}]},{"name":"invoices","columns":[{"name":"id","type":"Integer"}]}]},"tenant":[{"table":"posts","predicate":{"eq":[{"col":["posts","tenant"]},{"bind":["Integer",{"value":"tenant"}]}]}},{"table":"countries"}],"values":{"tenant":7},"requests":[{"dialect":"Pg","query":{"from":{"table":"posts"},"calls":[["select",{"col":["posts","title"]}]]}}]}"#;

pub(crate) const TENANT_7_LINES: &str =
    "{\"binds\":[[\"Integer\",7]],\"columns\":[\"Text\"],\"id\":1,\"safe\":true,\"sql\":\"SELECT \\\"posts\\\".\\\"title\\\" FROM \\\"posts\\\" WHERE (\\\"posts\\\".\\\"tenant\\\" = $1)\"}\n";

/// The same request for the tenant 8, one of a table that all tenants share, and one of a table without a policy.
pub(crate) const TENANT_8: &str =
    r#"{"schema":{"tables":[]},"values":{"tenant":8},"requests":[{"dialect":"Pg","query":{"from":{"table":"posts"},"calls":[["select",{"col":["posts","title"]}]]}},{"dialect":"Pg","query":{"from":{"table":"countries"}}},{"dialect":"Pg","query":{"from":{"table":"invoices"}}}]}"#;

/// The first line has the text and the id that the tenant 7 has, and a value of its own.
pub(crate) const TENANT_8_LINES: &str =
    "{\"binds\":[[\"Integer\",8]],\"columns\":[\"Text\"],\"id\":1,\"safe\":true,\"sql\":\"SELECT \\\"posts\\\".\\\"title\\\" FROM \\\"posts\\\" WHERE (\\\"posts\\\".\\\"tenant\\\" = $1)\"}\n{\"binds\":[],\"columns\":[\"Integer\"],\"id\":3,\"safe\":true,\"sql\":\"SELECT \\\"countries\\\".\\\"id\\\" FROM \\\"countries\\\"\"}\n{\"refused\":\"LacksPolicy\"}\n";

/// The values of no tenant: the member is missing, its name is another, and an array, which stands for no place.
pub(crate) const NO_TENANT: [&str; 3] = [
    r#"{"schema":{"tables":[]},"requests":[{"dialect":"Pg","query":{"from":{"table":"posts"}}}]}"#,
    r#"{"schema":{"tables":[]},"values":{"id":8},"requests":[{"dialect":"Pg","query":{"from":{"table":"posts"}}}]}"#,
    r#"{"schema":{"tables":[]},"values":{"tenant":[8]},"requests":[{"dialect":"Pg","query":{"from":{"table":"posts"}}}]}"#,
];
