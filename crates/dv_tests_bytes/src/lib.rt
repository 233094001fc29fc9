//! Tests of what is read and written as bytes: numbers, records, fields, message and cache files.
#![tactic(auto)]

#[cfg(test)]
mod cache;
#[cfg(test)]
mod dbox;
#[cfg(test)]
mod ends;
#[cfg(test)]
mod fields;
#[cfg(test)]
mod num;
#[cfg(test)]
mod records;
