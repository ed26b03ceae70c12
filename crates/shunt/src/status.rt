// How a run ended.

/// How a run ended, numbered from 0 in this order.
#[derive(Clone, Copy, Debug, PartialEq, Eq)]
pub enum Status {
    /// The command came to its good end.
    Done,
    /// It came to an end that asks for a look.
    Findings,
    /// The words spell no command.
    Words,
    /// An input file breaks its format or is too long.
    Input,
    /// The store failed.
    Store,
    /// Memory ran out.
    Memory,
    /// No matching of units and positions exists.
    NoMatching,
    /// The search spent its nodes before it was complete.
    Unfinished,
    /// The output failed.
    Sink,
}
