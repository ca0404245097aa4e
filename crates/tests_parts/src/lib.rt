//! Tests of the parts of a node, from times to wires and routes, by public calls alone, so that no library is
//! proved a second time with its tests. Those of sim_time and tournament are in `times`, `tournaments` and
//! `timetables`: a module has no library's name. Whole nodes are tried on the built program, by
//! dev/test_whole.py.
#![tactic(auto)]

#[cfg(test)]
mod chains;
#[cfg(test)]
mod drop_reasons;
#[cfg(test)]
mod links;
#[cfg(test)]
mod rankings;
#[cfg(test)]
mod routes;
#[cfg(test)]
mod times;
#[cfg(test)]
mod timetables;
#[cfg(test)]
mod wires;
