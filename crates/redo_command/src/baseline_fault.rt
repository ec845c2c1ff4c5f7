use redo_index::IndexFault;
use redo_line::StreamFault;

/// Why a baseline has no logs.
#[derive(Clone, Copy, Debug, PartialEq, Eq)]
pub enum BaselineFault {
    /// There is no file `names`.
    NamesMissing,
    /// The file `names` can't be read, or has more than 1,073,741,824 bytes.
    NamesRead,
    /// The index is rejected.
    Index(IndexFault),
    /// The log with this number has a fault. It is the first one in the index that has one, at this position, counted from 0.
    Log {
        position: u32,
        number: u32,
        fault: StreamFault,
    },
}
