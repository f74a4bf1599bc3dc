//! Tests of the program's commands over bytes in memory and of sessions, and the calls above the libraries that can answer NoMemory.
#![tactic(auto)]

#[cfg(test)]
mod answers;
#[cfg(test)]
mod conversations;
#[cfg(test)]
mod deep;
#[cfg(test)]
mod every_call;
#[cfg(test)]
mod examples;
#[cfg(test)]
mod sessions;
#[cfg(test)]
mod tenants;
