//! Tests of the program's call: each worked row and each kind of failure, played through it over
//! folders in memory and real ones.
#![tactic(auto)]

#[cfg(test)]
mod faults;
#[cfg(test)]
mod folders;
#[cfg(test)]
mod gates;
#[cfg(test)]
mod hostile;
#[cfg(test)]
mod limits;
#[cfg(test)]
mod real;
#[cfg(test)]
mod rows;
#[cfg(test)]
mod runs;
#[cfg(test)]
mod sleeper;
#[cfg(test)]
mod words;
