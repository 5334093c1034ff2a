//! What is wrong with a result.

/// The first thing that is wrong with a result, in this order, or that it is legal. Lines are those
/// of the result, from 1.
#[derive(Clone, Copy, Debug, PartialEq, Eq)]
pub enum Verdict {
    /// The result is one that the plan may be answered with.
    Legal,
    /// The line is missing, has no line feed or another form, or stands behind the line `end`.
    Form { line: u32 },
    /// The journal of the context is not legal, or its stamps don't rise. A context that is added
    /// while lanes are served has the number that calls name it by: 65,536 and K of its `add` line.
    Journal { context: u32 },
    /// The table isn't legal: its notes aren't those of the calls, or tell a wrong thing.
    Table,
    /// The stamps don't make one history of all journals, and of the table where there is one.
    Stamps,
    /// The line is not the reply that is due along the journals.
    Reply { line: u32 },
    /// The guess can't have been made, or it missed another number of messages.
    Guess { line: u32 },
}
