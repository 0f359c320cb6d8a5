//! Tests of pulls: what a store has afterwards, what is refused, and remotes that offer what must
//! be refused.
#![tactic(auto)]

#[cfg(test)]
mod heads;
#[cfg(test)]
mod hostile;
#[cfg(test)]
mod made_breaks;
#[cfg(test)]
mod odd;
#[cfg(test)]
mod offering;
#[cfg(test)]
mod offers;
#[cfg(test)]
mod pulls;
#[cfg(test)]
mod rows;
#[cfg(test)]
mod walks;
