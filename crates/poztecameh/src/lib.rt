// What C calls (include/poztecameh.h): each call is that of a door, under the door's clauses. No crate stands on this one.
#![tactic(auto)]

mod charts;
mod classes;
mod frames;
mod ledgers;
mod routes;
mod sheets;
mod tables;
