//! A gate is notified of reads, entries and ends, and may hold the notifying thread. The program's gate does nothing; the
//! tests' gate yields until another event, or gives up. It is also notified when nothing is stored any more: a held thread
//! would wait forever otherwise.
use std::sync::Wait;

/// Is notified of the progress of a gathering by each of its threads, and may hold the thread that notifies
/// it. The result of the gathering is the same with every gate. Gates serve tests of concurrency.
pub trait Gate: Sync {
    /// Called before each read of a stream, by the thread that reads it. `read_number` counts the stream's
    /// reads from 1.
    fn before_read<R: Wait>(&self, rt: &R, stream: u32, read_number: u64);

    /// Called after an entry of a stream was taken, by the thread that takes. `entry_number` counts the stream's
    /// entries from 1.
    fn taken<R: Wait>(&self, rt: &R, stream: u32, entry_number: u64);

    /// Called after a stream's end or fault was taken, by the thread that takes.
    fn over<R: Wait>(&self, rt: &R, stream: u32);
}

/// The gate that does nothing.
#[derive(Clone, Copy, Debug)]
pub struct Free;

impl Gate for Free {
    fn before_read<R: Wait>(&self, _rt: &R, _stream: u32, _read_number: u64) {}

    fn taken<R: Wait>(&self, _rt: &R, _stream: u32, _entry_number: u64) {}

    fn over<R: Wait>(&self, _rt: &R, _stream: u32) {}
}
