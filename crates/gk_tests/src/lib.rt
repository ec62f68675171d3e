//! Tests of signed references: calls that take memory, where it is ample, and signatures that
//! another program computed.
#![tactic(auto)]

#[cfg(test)]
mod references;
