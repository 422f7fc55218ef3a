//! Converts ways to leave a processor, preferences, resources and levels to the words in traces and
//! outputs, and back.
ghost use Rattle.std.specs.Prelude.{◌≡◌, ◌≤◌, length};
ghost use Rattle.psi_base.specs.Words.{how_word, hows, level_word, levels, named, preference_word, preferences, resource_word, resources};

use crate::event::{How, Level, Preference, Res};

impl How {
    /// Returns the word for this way to leave a processor.
    pub fn word(self) -> &'static str
        ensures word { result.now ≡ how_word self }
        ensures short { length result.now ≤ 7 }
    {
        match self {
            How::Preempt => "preempt",
            How::Sleep => "sleep",
            How::IoWait => "iowait",
            How::Exit => "exit",
            How::Idle => "idle",
        }
    }

    /// Returns the way to leave a processor that `word` spells, or `None` for any other word.
    pub fn of(word: &[u8]) -> Option<How>
        ensures { result ≡ named how_word hows word.now }
    {
        [How::Preempt, How::Sleep, How::IoWait, How::Exit, How::Idle]
            .iter()
            .find(|how| word == how.word().as_bytes())
            .copied()
    }
}

impl Preference {
    /// Returns the word for this preference.
    pub fn word(self) -> &'static str
        ensures word { result.now ≡ preference_word self }
        ensures short { length result.now ≤ 6 }
    {
        match self {
            Preference::Prefer => "prefer",
            Preference::Avoid => "avoid",
            Preference::Plain => "none",
        }
    }

    /// Returns the preference that `word` spells, or `None` for any other word.
    pub fn of(word: &[u8]) -> Option<Preference>
        ensures { result ≡ named preference_word preferences word.now }
    {
        [Preference::Prefer, Preference::Avoid, Preference::Plain]
            .iter()
            .find(|preference| word == preference.word().as_bytes())
            .copied()
    }
}

impl Res {
    /// Returns the word for this resource.
    pub fn word(self) -> &'static str
        ensures word { result.now ≡ resource_word self }
        ensures short { length result.now ≤ 6 }
    {
        match self {
            Res::Io => "io",
            Res::Memory => "memory",
            Res::Cpu => "cpu",
        }
    }

    /// Returns the resource that `word` spells, or `None` for any other word.
    pub fn of(word: &[u8]) -> Option<Res>
        ensures { result ≡ named resource_word resources word.now }
    {
        [Res::Io, Res::Memory, Res::Cpu]
            .iter()
            .find(|res| word == res.word().as_bytes())
            .copied()
    }
}

impl Level {
    /// Returns the word for this level.
    pub fn word(self) -> &'static str
        ensures word { result.now ≡ level_word self }
        ensures short { length result.now ≤ 4 }
    {
        match self {
            Level::SomeStalled => "some",
            Level::FullStalled => "full",
        }
    }

    /// Returns the level that `word` spells, or `None` for any other word.
    pub fn of(word: &[u8]) -> Option<Level>
        ensures { result ≡ named level_word levels word.now }
    {
        [Level::SomeStalled, Level::FullStalled]
            .iter()
            .find(|level| word == level.word().as_bytes())
            .copied()
    }
}
