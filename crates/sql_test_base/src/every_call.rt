//! Each public call below the nodes that can answer NoMemory, made once with memory to spare: each gives what it would give, and not
//! that answer.

mod builders;
mod declarations;
mod leaves;
mod raw;
mod walked;

use std::test::Fail;

#[test]
fn every_call_once(rt: HostRuntime) -> Result<(), Fail> {
    let alloc = rt.alloc();
    declarations::every_call(alloc)?;
    builders::every_call(alloc)?;
    walked::every_call(alloc)?;
    raw::every_call(alloc)?;
    leaves::every_call(alloc)
}
