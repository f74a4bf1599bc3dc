ghost use Rattle.std.specs.Prelude.{◌≡◌, map};
ghost use Rattle.sql_tool_document.specs.Trees.{request_tree};
ghost use Rattle.sql_tool_session.specs.Within as within;

use sql_build_depth::is_too_deep;
use sql_tool_document::Request;

/// Whether the request's statement nests no deeper than the program builds.
fn fits(request: &Request) -> bool
    ensures { result ≡ within.fits (request_tree request.now) }
{
    !is_too_deep(&request.query)
}

/// The requests before the first one that nests too deep, all of them where none does.
pub(crate) fn before_too_deep(requests: &[Request]) -> &[Request]
    ensures { map request_tree result.now
        ≡ within.before_too_deep (map request_tree requests.now) }
{
    let count = requests.iter().take_while(|request| fits(request)).count();
    &requests[..count]
}
