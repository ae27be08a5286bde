//! Tests of the crates of fire times, of what no worked row can show: dates and zones, cron texts with their places, zone rules, and values
//! that no line has.
#![tactic(auto)]

#[cfg(test)]
mod beyond;
#[cfg(test)]
mod civil;
#[cfg(test)]
mod cron_text;
#[cfg(test)]
mod zone_rules;
#[cfg(test)]
mod zoned;
