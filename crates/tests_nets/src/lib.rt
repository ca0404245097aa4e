//! Tests of nets, lines, tables, windows and boards, by public calls alone, so that no library is proved a
//! second time with its tests. A test proves nothing of what comes out: so dear calls stand in functions
//! whose contracts say no more than the next call asks for.
#![tactic(auto)]

#[cfg(test)]
mod boards;
#[cfg(test)]
mod lines;
#[cfg(test)]
mod nets;
#[cfg(test)]
mod scenarios;
#[cfg(test)]
mod tables;
#[cfg(test)]
mod tallies;
#[cfg(test)]
mod windows;
