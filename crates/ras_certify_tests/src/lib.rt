//! Tests of certificates: for each kind of system the formulas of a good evidence get trees, and with these they are written,
//! read and judged good.
#![tactic(auto)]

#[cfg(test)]
mod tests;
