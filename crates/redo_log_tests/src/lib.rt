//! Tests of runs, and of the command's files and failures. They are in a separate crate so that no crate below is proved a second
//! time.
#![tactic(auto)]

#[cfg(test)]
mod captures;
#[cfg(test)]
mod expect;
#[cfg(test)]
mod failing;
#[cfg(test)]
mod faults;
#[cfg(test)]
mod many;
#[cfg(test)]
mod names_file;
#[cfg(test)]
mod run;
