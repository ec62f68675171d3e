//! Tests of facets: trees of them in the table of actors, which the machine makes one level deep
//! alone, and those of a dataspace's observations in a world; and watchers in a world.
#![tactic(auto)]

#[cfg(test)]
mod facets;
#[cfg(test)]
mod observations;
#[cfg(test)]
mod watchers;
