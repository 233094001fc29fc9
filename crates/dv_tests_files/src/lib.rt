//! Tests of the disk, the log file and the index.
#![tactic(auto)]

#[cfg(test)]
mod entries;
#[cfg(test)]
mod folder;
#[cfg(test)]
mod logfile;
#[cfg(test)]
mod shelf;
#[cfg(test)]
mod snapshots;
#[cfg(test)]
mod steps;
