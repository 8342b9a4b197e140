//! What a refused growth of memory leaves in the libraries of a gateway, between its clients and its devices and of
//! notifications, and an example of each of them.
#![tactic(auto)]

#[cfg(test)]
mod examples;
#[cfg(test)]
mod gate;
#[cfg(test)]
mod gate_config;
#[cfg(test)]
mod informs;
#[cfg(test)]
mod made;
#[cfg(test)]
mod walk;
