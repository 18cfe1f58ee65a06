//! Tests of sites, keys, frames and storage, by calls of their libraries.
//!
//! They stand apart from the ten libraries that they call, so that each of these is proved once.
#![tactic(auto)]

#[cfg(test)]
mod addresses;
#[cfg(test)]
mod areas;
#[cfg(test)]
mod keys;
#[cfg(test)]
mod maps;
#[cfg(test)]
mod pages;
#[cfg(test)]
mod queues;
#[cfg(test)]
mod sessions;
#[cfg(test)]
mod shared;
#[cfg(test)]
mod sheds;
#[cfg(test)]
mod tabs;
#[cfg(test)]
mod trees;
