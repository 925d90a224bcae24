//! Tests of `oi_disk`.
#![tactic(auto)]

#[cfg(test)]
mod tests;
