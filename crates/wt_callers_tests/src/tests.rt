// Tests of what no clause says: what callers, services and the line give back, and which locks a
// call takes.

mod apart;
mod at_once;
mod compare;
mod dropping;
mod following;
mod late;
mod lender;
mod lending;
mod lines;
mod requests;
mod serving;
mod settings;
mod shares;
mod tallies;
mod telling;
