//! The states of a group that the lines of its pressure files report, by resource and level.
ghost use Rattle.std.specs.Prelude.{◌≡◌, ◌<◌};
ghost use Rattle.psi_base.specs.States.{state_number, state_of};

use crate::event::{Level, Res, State};

impl State {
    /// Returns the state whose time a line of a pressure file reports, for the resource `res` of
    /// the file and the level `level` of the line. The result is never `Nonidle`.
    pub fn of(res: Res, level: Level) -> State
        ensures value { result ≡ state_of res level }
        ensures pressure { state_number result < 6 }
    {
        match (res, level) {
            (Res::Io, Level::SomeStalled) => State::IoSome,
            (Res::Io, Level::FullStalled) => State::IoFull,
            (Res::Memory, Level::SomeStalled) => State::MemSome,
            (Res::Memory, Level::FullStalled) => State::MemFull,
            (Res::Cpu, Level::SomeStalled) => State::CpuSome,
            (Res::Cpu, Level::FullStalled) => State::CpuFull,
        }
    }
}
