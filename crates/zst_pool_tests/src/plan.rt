//! Plans of what no command makes, in directories that are spelled by hand.
mod headers;
mod receive;
mod receivers;
mod resume;
mod send;
mod senders;
mod twins;
