//! Each public call on a node that can answer NoMemory, made once with memory to spare: each gives what it would give, and not that
//! answer.

mod conditions;
mod conversions;
mod expressions;
mod nodes;
mod queries;
mod sources;
mod statements;

use std::test::Fail;

#[test]
fn every_call_once(rt: HostRuntime) -> Result<(), Fail> {
    let alloc = rt.alloc();
    nodes::every_call(alloc)?;
    expressions::every_call(alloc)?;
    conditions::every_call(alloc)?;
    conversions::every_call(alloc)?;
    sources::every_call(alloc)?;
    queries::every_call(alloc)?;
    statements::every_call(alloc)
}
