//! Tests of scenarios, their images and their texts, by public calls alone, so that no library is proved a
//! second time with its tests.
#![tactic(auto)]

#[cfg(test)]
mod images;
#[cfg(test)]
mod texts;
