ghost use Rattle.std.specs.Prelude.{◌≡◌};
ghost use Rattle.sql_tool_series.specs.Generated.{dialect_of as dialect_numbered, form_of as form_numbered};

use sql_dialect::Dialect;

/// The query that a generated request asks for.
#[derive(Debug, Clone, Copy, PartialEq, Eq)]
pub enum Form {
    /// The user of a number.
    ById,
    /// As many names and titles as a number.
    InnerJoin,
    /// All titles, of which a user may have none.
    LeftJoin,
    /// The ids, combined with themselves.
    SelfUnion,
    /// The users of the first numbers.
    Membership,
    /// The users after so many, for one dialect.
    Boxed,
    /// The users, with a lock.
    KeyShare,
    /// The users who have a post.
    WithPosts,
}

/// The form of the request of this number.
pub fn form_of(number: u32) -> Form
    ensures { result ≡ form_numbered number }
{
    match number / 3 % 8 {
        0 => Form::ById,
        1 => Form::InnerJoin,
        2 => Form::LeftJoin,
        3 => Form::SelfUnion,
        4 => Form::Membership,
        5 => Form::Boxed,
        6 => Form::KeyShare,
        _ => Form::WithPosts,
    }
}

/// The dialect of the request of this number.
pub fn dialect_of(number: u32) -> Dialect
    ensures { result ≡ dialect_numbered number }
{
    match number % 3 {
        0 => Dialect::Pg,
        1 => Dialect::Mysql,
        _ => Dialect::Sqlite,
    }
}
