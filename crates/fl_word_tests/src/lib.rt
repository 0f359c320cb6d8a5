//! Tests of commands, batches, reasons, notes, the help, the lines that are printed, and the
//! explanations of refusals.
#![tactic(auto)]

#[cfg(test)]
mod advice;
#[cfg(test)]
mod asked;
#[cfg(test)]
mod batches;
#[cfg(test)]
mod help;
#[cfg(test)]
mod lines;
#[cfg(test)]
mod notes;
#[cfg(test)]
mod reasons;
#[cfg(test)]
mod rows;
#[cfg(test)]
mod words;
