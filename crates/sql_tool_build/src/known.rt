ghost use Rattle.std.specs.Prelude.{◌≡◌, Some, IfOk, OnOk, option_map};
ghost use Rattle.std.specs.Option.{unwrap_or};
ghost use Rattle.sql_tool_build.specs.inside.Keys.{keyed, id_found, seen_at, IsKept};

use sql_dialect::Dialect;
use sql_key::QueryKey;
use sql_rows::{NamedRequest, RequestKey};
use std::alloc::AllocError;
use std::collections::BTreeMap;

fn id_of_key(
    seen: &mut BTreeMap<NamedRequest, u64>,
    key: NamedRequest,
    number: u64,
) -> Result<u64, AllocError>
    ensures found { IfOk result (λ id. id ≡ unwrap_or (seen_at seen.old key) number) }
    ensures kept { OnOk result
        (IsKept (seen_at seen.old) (seen_at seen.new) number (Some key)) }
{
    match seen.get(&key).copied() {
        Some(first) => Ok(first),
        None => {
            seen.insert(key, number)?;
            Ok(number)
        }
    }
}

/// The number of the first request that has this key, where `number` is this request's own. A new key is added to the map. A
/// statement without a key has no id.
pub fn request_id(
    seen: &mut BTreeMap<NamedRequest, u64>,
    dialect: Dialect,
    key: Option<QueryKey>,
    number: u64,
) -> Result<Option<u64>, AllocError>
    ensures found { IfOk result (λ id. id
        ≡ id_found (seen_at seen.old) number (option_map (keyed dialect) key)) }
    ensures kept { OnOk result
        (IsKept (seen_at seen.old) (seen_at seen.new) number (option_map (keyed dialect) key)) }
{
    match key {
        None => Ok(None),
        Some(key) => {
            let request = NamedRequest::from(RequestKey { dialect, key });
            Ok(Some(id_of_key(seen, request, number)?))
        }
    }
}
