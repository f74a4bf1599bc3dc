//! Tests of what is told of a statement: keys, places, types, broken rules, and what `compile` gives.
#![tactic(auto)]

#[cfg(test)]
mod cached;
#[cfg(test)]
mod check;
#[cfg(test)]
mod every_call;
#[cfg(test)]
mod flat;
#[cfg(test)]
mod rules;
