//! Tests of clock rows. A clock row contains the clocks of a processor, which one writer and
//! several readers share. In these tests, writer and reader are in one thread or in two threads.
mod alone;
mod irqs;
mod live;
mod shown;
mod threads;
