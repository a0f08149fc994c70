//! What no line shows of a dump: an output that keeps what it takes, and the status of each refusal.
mod flushes;
mod items;
mod outputs;
mod round_trip;
mod statuses;
