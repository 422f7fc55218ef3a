//! Defines a type for each kind of step on a seqlock. Each type states how the step changes the
//! view of a handle, and what the result of the step means. The types have no values at run time.
//! The module `steps` has the functions that perform the steps.
ghost use Rattle.clock_row.specs.Steps.{BeginsTry, Closes, EndsTry, Loads, Opens, Owns, Puts, note_of, reader_of, with_note};
ghost use Rattle.clock_row.specs.declared.view.View.TheVariants.{Spent};

use crate::view::View;
use atomic_table::{Join, Play, Split};

/// The writer begins a change (step 1).
pub(crate) struct Opening;

impl Play<(), View> for Opening {
    ghost then = { Opens };
}

/// The writer stores a word after the sequence number (step 2).
pub(crate) struct Putting;

impl Play<(), View> for Putting {
    ghost then = { Puts };
}

/// The writer completes a change (step 3).
pub(crate) struct Closing;

impl Play<(), View> for Closing {
    ghost then = { Closes };
}

/// The writer loads a word (step 4).
pub(crate) struct Owning;

impl Play<(), View> for Owning {
    ghost then = { Owns };
}

/// A reader begins an attempt to take a sample: it loads the sequence number (step 5).
pub(crate) struct Beginning;

impl Play<(), View> for Beginning {
    ghost then = { BeginsTry };
}

/// A reader loads a word after the sequence number (step 6).
pub(crate) struct Loading;

impl Play<(), View> for Loading {
    ghost then = { Loads };
}

/// A reader ends an attempt to take a sample: it loads the sequence number again (step 7).
pub(crate) struct Ending;

impl Play<(), View> for Ending {
    ghost then = { EndsTry };
}

/// The writer creates a reader, which gets its own handle (step 8).
pub(crate) struct NewReader;

impl Split<View> for NewReader {
    ghost left = { λ view. view };

    ghost right = { reader_of };
}

/// The writer or a reader creates a message (step 8).
pub(crate) struct NewNote;

impl Split<View> for NewNote {
    ghost left = { λ view. view };

    ghost right = { note_of };
}

/// A reader or the writer receives a message (step 9).
pub(crate) struct TakenNote;

impl Join<View> for TakenNote {
    ghost both = { with_note };

    ghost spent = { Spent };
}
