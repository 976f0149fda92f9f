// Tests of what no clause says: that calls succeed, how many loads are made, and what threads meet.

mod asleep;
mod calls;
mod codes;
mod compare;
mod leads;
mod posted;
mod refusals;
mod sharing;
mod soak;
mod stage;
mod threads;
mod together;
mod workers;
