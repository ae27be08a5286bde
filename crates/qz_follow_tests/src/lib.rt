//! Tests of followers: a store in any pieces, a fault, and a promotion.
#![tactic(auto)]

#[cfg(test)]
mod promotions;
#[cfg(test)]
mod streams;
