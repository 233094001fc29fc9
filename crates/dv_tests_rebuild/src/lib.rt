//! Tests of rebuilt folders: keywords, each call being the last one, files of any bytes, and what
//! is told.
#![tactic(auto)]

#[cfg(test)]
mod crashes;
#[cfg(test)]
mod folders;
#[cfg(test)]
mod hostile;
#[cfg(test)]
mod keywords;
#[cfg(test)]
mod reports;
