//! Tests of what goes over connections: of the client, the exchange and the sessions, where no
//! program shows it.
#![tactic(auto)]

#[cfg(test)]
mod asking;
#[cfg(test)]
mod client;
#[cfg(test)]
mod comparing;
#[cfg(test)]
mod examples;
#[cfg(test)]
mod exchange;
#[cfg(test)]
mod frames;
#[cfg(test)]
mod hearing;
#[cfg(test)]
mod outcomes;
#[cfg(test)]
mod parts;
#[cfg(test)]
mod session;
#[cfg(test)]
mod traces;
#[cfg(test)]
mod vectors;
#[cfg(test)]
mod writing;
