use zst_model::{Command, SendAsk};
use zst_names::DatasetName;
use zst_plan::RecvAsk;

/// One of the two pools of a script.
#[derive(Clone, Copy, Debug, PartialEq, Eq)]
pub enum Side {
    Here,
    There,
}

/// What one line of a script asks for. Ids of sessions are below 2^32, counts of bytes from 1 to 1,048,576.
#[derive(Drop)]
pub enum Event {
    /// A command on a pool.
    Step {
        side: Side,
        command: Command,
    },
    /// Tells the token of a dataset's partial state.
    Token {
        side: Side,
        dataset: DatasetName,
    },
    /// Tells whether a pool is sound.
    Check {
        side: Side,
    },
    /// Opens a send.
    Send {
        side: Side,
        send: u32,
        ask: SendAsk,
    },
    /// Opens a send with the token that the other pool tells of this dataset.
    Resume {
        side: Side,
        send: u32,
        dataset: DatasetName,
    },
    /// Opens a receive.
    Receive {
        side: Side,
        receive: u32,
        ask: RecvAsk,
    },
    /// Takes at most so many bytes of a send, and feeds them to a receive.
    Pump {
        send: u32,
        receive: u32,
        count: u32,
    },
    /// Takes at most so many bytes of a send.
    Drop {
        send: u32,
        count: u32,
    },
    /// Closes a send.
    Close {
        send: u32,
    },
    /// Ends a receive.
    Cut {
        receive: u32,
    },
    /// Ends the sessions of a pool and opens it again.
    Reopen {
        side: Side,
    },
}
