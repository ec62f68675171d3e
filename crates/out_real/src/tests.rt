//! Each adapter once.
mod dialling;
mod files;
mod links;
mod streams;
mod threads;
mod waits;
