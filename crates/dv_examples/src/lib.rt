//! Worked examples of the definitions, each a theorem that holds by computing both sides.
#![tactic(auto)]
