//! Runs of `replay::run` whose streams and hosts a built program cannot have, and lines of words.
#![tactic(auto)]

#[cfg(test)]
mod faults;
#[cfg(test)]
mod real_host;
#[cfg(test)]
mod row;
#[cfg(test)]
mod sizes;
#[cfg(test)]
mod words;
