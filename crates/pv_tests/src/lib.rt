//! Tests of the values and of the codecs: calls that take memory, where it is ample, and that no
//! table of cases can bring. The tables are data of `dsd_rows`.
#![tactic(auto)]

#[cfg(test)]
mod appended;
#[cfg(test)]
mod values;
