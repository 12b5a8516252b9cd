//! The tests of the crates that the others stand on, of what no program shows: words, numbers of
//! threads, circles, memory, ports, strings, and lines.
#![tactic(auto)]

#[cfg(test)]
mod blocks;
#[cfg(test)]
mod comparing;
#[cfg(test)]
mod items;
#[cfg(test)]
mod lines;
#[cfg(test)]
mod memory;
#[cfg(test)]
mod past;
#[cfg(test)]
mod ports;
#[cfg(test)]
mod status;
#[cfg(test)]
mod threads;
#[cfg(test)]
mod words;
