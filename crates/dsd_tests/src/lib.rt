//! Tests of the top call that no file of rows can bring about: with threads at hand, over a sink of
//! another kind, sessions of `serve` beside one another, a query at them, a server by kept
//! bindings, and how deep a value the stack of a thread holds, which no clause says. Calls of the
//! crates below it are made by rows.
#![tactic(auto)]

#[cfg(test)]
mod asking;
#[cfg(test)]
mod beside;
#[cfg(test)]
mod deep;
#[cfg(test)]
mod fronts;
#[cfg(test)]
mod guests;
#[cfg(test)]
mod kept;
#[cfg(test)]
mod overlap;
#[cfg(test)]
mod pipes;
#[cfg(test)]
mod room;
#[cfg(test)]
mod running;
#[cfg(test)]
mod seats;
#[cfg(test)]
mod statuses;
