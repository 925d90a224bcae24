//! Tests of `oi_target_tasks`.
#![tactic(auto)]

#[cfg(test)]
mod tests;
