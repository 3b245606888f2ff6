//! The definition of answers before nanoseconds and VLAN tags were supported, and the law that it still holds for captures without these.
//! The definitions are those of then, word for word, except that each name has `_before` and that records of today have the VLAN `None`.
//! Other words are those of today, which both left as they were.
#![tactic(auto)]

pub mod laws;
