//! What a refused growth of memory leaves, in each library, and an example of each library.
#![tactic(auto)]

#[cfg(test)]
mod access;
#[cfg(test)]
mod agent;
#[cfg(test)]
mod bindings;
#[cfg(test)]
mod clocks;
#[cfg(test)]
mod elements;
#[cfg(test)]
mod examples;
#[cfg(test)]
mod manager;
#[cfg(test)]
mod users;
#[cfg(test)]
mod world;
