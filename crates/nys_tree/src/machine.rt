use crate::{Block, Name};
use sqlite_items::Items;

/// `machine`: the variables, and the two handlers.
#[derive(Drop)]
pub struct Machine {
    /// The variables, in order of declaration.
    pub vars: Items<Var>,
    /// What is done on an input.
    pub on_input: OnInput,
    /// What is done on a message.
    pub on_receive: OnReceive,
}

/// `var`: a variable of the state.
#[derive(Drop)]
pub struct Var {
    /// Its name.
    pub name: Name,
    /// The number in brackets, where it is a list: the list's length.
    pub size: Option<i64>,
    /// The number that it starts with, its sign applied; each number of a list starts so.
    pub start: i64,
}

/// `on input`: the handler of inputs.
#[derive(Drop)]
pub struct OnInput {
    /// The name of the input's list.
    pub payload: Name,
    /// What is done.
    pub body: Block,
}

/// `on receive`: the handler of messages.
#[derive(Drop)]
pub struct OnReceive {
    /// The name of the sender, a scalar.
    pub sender: Name,
    /// The name of the message's list.
    pub payload: Name,
    /// What is done.
    pub body: Block,
}
