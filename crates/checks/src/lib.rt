//! Tests of the calls that no job makes, and of what no contract says of the others: answers that were
//! worked out elsewhere, and calls that take memory and must get it.
#![tactic(auto)]

#[cfg(test)]
mod bytes;
#[cfg(test)]
mod flips;
#[cfg(test)]
mod isomorphisms;
#[cfg(test)]
mod journals;
#[cfg(test)]
mod links;
#[cfg(test)]
mod local_flips;
#[cfg(test)]
mod made;
#[cfg(test)]
mod samples;
#[cfg(test)]
mod texts;
#[cfg(test)]
mod words;
