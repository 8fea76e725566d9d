//! Lists that are kept in an order: what it is to put an element in its place, to sort, and to take
//! an element out. Definitions and lemmas alone.
#![tactic(auto)]
