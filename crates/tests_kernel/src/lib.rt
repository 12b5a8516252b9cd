//! Tests of what the kernel and the checker of histories give beside what the programs show.
#![tactic(auto)]

#[cfg(test)]
mod boxes;
#[cfg(test)]
mod compacted;
#[cfg(test)]
mod kernel;
#[cfg(test)]
mod meetings;
#[cfg(test)]
mod parties;
#[cfg(test)]
mod seats;
#[cfg(test)]
mod steps;
