//! The world of interleavings as a definition: sessions over one log, whose steps come in any
//! order.
#![tactic(auto)]
