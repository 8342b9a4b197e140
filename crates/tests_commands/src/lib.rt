//! Tests of the program's libraries that can be neither transcripts in `tests/cli` nor rows of data: writers that
//! fail, what no command reaches, and an example of each library.
#![tactic(auto)]

#[cfg(test)]
mod captures;
#[cfg(test)]
mod examples;
#[cfg(test)]
mod streams;
#[cfg(test)]
mod unreached;
