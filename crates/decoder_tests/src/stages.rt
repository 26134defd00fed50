// Stages and their links, and whole runs of small trees, on one thread and with a thread for each decoder.
mod alone;
pub mod bus;
mod line;
mod links;
mod pacers;
mod pauses;
mod threads;
mod trees;
mod turns;
mod wide;
