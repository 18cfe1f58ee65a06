//! Tests of script lines and replies, by the public calls of `script_lines`, `generated_day` and
//! `reply_lines`.
//!
//! They stand apart from those libraries, so that each is proved once.
#![tactic(auto)]

#[cfg(test)]
mod actions;
#[cfg(test)]
mod cuts;
#[cfg(test)]
mod days;
#[cfg(test)]
mod heads;
#[cfg(test)]
mod replies;
#[cfg(test)]
mod scripts;
#[cfg(test)]
mod two_scripts;
