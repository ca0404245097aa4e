//! Tests of the engine, of the debugger, of the groups that are found and of an image's parts, by public calls
//! alone, so that no library is proved a second time with its tests.
#![tactic(auto)]

#[cfg(test)]
mod engines;
#[cfg(test)]
mod found;
#[cfg(test)]
mod refused;
#[cfg(test)]
mod saved_parts;
