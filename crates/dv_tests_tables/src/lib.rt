//! Tests of the tables of extensions and of keywords, and of ranges.
#![tactic(auto)]

#[cfg(test)]
mod cases;
#[cfg(test)]
mod ext;
#[cfg(test)]
mod keywords;
#[cfg(test)]
mod ranges;
