use crate::trouble::Trouble;

/// Why a script wasn't carried out.
#[derive(Debug, PartialEq, Eq, Drop)]
pub enum RunFault {
    /// The run's trouble, which came at this line, from 1.
    Stopped { line: usize, trouble: Trouble },
    /// The sink failed to take what was to be written.
    SinkFailed,
    /// Memory ran out.
    Memory,
}
