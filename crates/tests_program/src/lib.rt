//! Tests of whole sessions, by public calls alone, so that no library is proved a second time with its
//! tests. What compares bytes alone is tried on the built program, by dev/test_whole.py.
#![tactic(auto)]

#[cfg(test)]
mod whole;
