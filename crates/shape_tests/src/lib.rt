//! Tests of shapes: what an index would answer by the parts of a pattern, and the keys of outlines.
#![tactic(auto)]

#[cfg(test)]
mod shapes;
