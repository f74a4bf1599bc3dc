//! Tests of the tenant guard: worked texts, each refusal, and messages.
#![tactic(auto)]

#[cfg(test)]
mod every_call;
#[cfg(test)]
mod fixture;
#[cfg(test)]
mod policed;
#[cfg(test)]
mod refused;
#[cfg(test)]
mod written;
