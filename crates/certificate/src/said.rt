//! What lines of certificates say.
//! Nothing runs.

use protocol_model::Configuration;
use sequence::Sequence;

/// What a certificate is said to be.
#[derive(Clone, Copy)]
pub enum Kind {
    /// An automaton.
    Safe,
    /// A run.
    Unsafe,
    /// A search that reached its budget.
    Unknown,
}

/// Where a line stands.
#[derive(Clone, Copy)]
pub enum Place {
    /// It is the first one.
    Title,
    /// It says the number of states.
    States,
    /// It names a letter or says the number of states.
    Letters,
    /// It stands after the number of states, and an edge names its letter.
    NamedEdges,
    /// It stands after the number of states, and an edge has indices of letters.
    IndexedEdges,
    /// It says the first configuration of a run.
    Start,
    /// It stands after the first configuration of a run.
    Steps,
}

/// What a line says. A number of a name that is not there is that of all names, and the letters of a list whose part is not that of its
/// section are not all there.
#[derive(Drop)]
pub enum Said {
    /// A version and a kind.
    Title(u32, Kind),
    /// A letter.
    Letter(u32),
    /// So many states.
    States(u32),
    /// The state accepts.
    Final(u32),
    /// From a state a letter leads to a state.
    Edge(u32, u32, u32),
    /// From a state to another the letters with these indices lead.
    Edges(u32, u32, Sequence<u32>),
    /// The end.
    End,
    /// The first configuration.
    Start(Configuration),
    /// A rule, and the configuration after it.
    Step(u32, Configuration),
}

/// What is wrong with what a line says.
#[derive(Clone, Copy)]
pub enum What {
    /// It is the first line of another version.
    Version,
    /// The text is that of a search that reached its budget.
    NothingToVerify,
    /// There are more than 1,000,000 states.
    TooMany,
    /// It names what the system does not have.
    UnknownName,
    /// An earlier line names the same letter.
    TwoLetters,
    /// A state is not below the number of states, or an index of a letter not below the number of letters that have lines.
    OutOfRange,
    /// An edge has the source and letter of an earlier one.
    TwoEdges,
}
