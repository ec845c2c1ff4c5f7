//! Tests of the libraries up to the viewer, of arguments and of indexes, if they need several calls or crates. They are in a
//! separate crate so that no crate below is proved a second time.
#![tactic(auto)]

#[cfg(test)]
mod counting;
#[cfg(test)]
mod cutter;
#[cfg(test)]
mod devices;
#[cfg(test)]
mod entries;
#[cfg(test)]
mod expect;
#[cfg(test)]
mod gather;
#[cfg(test)]
mod gathered;
#[cfg(test)]
mod held;
#[cfg(test)]
mod index;
#[cfg(test)]
mod mailbox;
#[cfg(test)]
mod names;
#[cfg(test)]
mod plan;
#[cfg(test)]
mod scan;
#[cfg(test)]
mod send;
#[cfg(test)]
mod sent;
#[cfg(test)]
mod table;
#[cfg(test)]
mod view;
#[cfg(test)]
mod words;
