//! The layout of the pages of a kernel's ring buffers, and of the event records in the pages. The
//! crate convert_table reads a layout from a text.

use psi_base::Text;
use std::marker::Model;

/// The size of a number in a record, in bytes.
#[derive(Clone, Copy, Debug, PartialEq, Eq)]
pub enum Width {
    /// One byte.
    One,
    /// Two bytes.
    Two,
    /// Four bytes.
    Four,
    /// Eight bytes.
    Eight,
}

/// A field of a record: its type, and its offset in bytes from the start of the record.
#[derive(Clone, Copy, Debug, PartialEq, Eq)]
pub enum Field {
    /// An unsigned number.
    Unsigned { offset: u32, width: Width },
    /// A signed number.
    Signed { offset: u32, width: Width },
    /// The state in which a task leaves its processor: a number whose bits are converted to a
    /// letter.
    State { offset: u32, width: Width },
    /// A text of at most `most` bytes that ends at its first zero byte. If `most` is 0, the text
    /// may extend to the end of the record.
    Text { offset: u32, most: u32 },
    /// A text elsewhere in the record. The field is a number of four bytes, with the text's offset
    /// in its lower half and the text's length in its upper half. The text ends at its first zero
    /// byte.
    Located { offset: u32 },
}

/// A letter for a task's state, and the bits of the state that the letter represents.
#[derive(Clone, Copy, Debug, PartialEq, Eq)]
pub struct StateLetter {
    /// The bits that the letter represents. A state has the letter if at least one of these bits is
    /// set in the state.
    pub bits: u64,
    /// The letter, as an ASCII byte.
    pub letter: u8,
}

/// A list of fields. In contracts, it is the list of its fields.
#[derive(Drop)]
pub struct FieldList {
    fields: Vec<Field>,
}

impl Model for FieldList {
    ghost use Rattle.std.specs.Prelude.{List};
    ghost use Rattle.page_spec.specs.declared.layout.Field.{Field};

    ghost Value = { List Field };

    ghost view = { λ l. l.fields.items };
}

impl FieldList {
    ghost use Rattle.std.specs.Prelude.{◌≡◌};

    /// Creates a list of these fields, in order.
    pub fn new(fields: Vec<Field>) -> Self
        ensures { result ≡ fields.items }
    {
        FieldList { fields }
    }

    /// Returns the fields, in order.
    pub fn items(&self) -> &[Field]
        ensures { result.now ≡ self.now }
    {
        &self.fields
    }
}

/// A list of letters of task states. In contracts, it is the list of its letters.
#[derive(Drop)]
pub struct LetterList {
    letters: Vec<StateLetter>,
}

impl Model for LetterList {
    ghost use Rattle.std.specs.Prelude.{List};
    ghost use Rattle.page_spec.specs.declared.layout.StateLetter.{StateLetter};

    ghost Value = { List StateLetter };

    ghost view = { λ l. l.letters.items };
}

impl LetterList {
    ghost use Rattle.std.specs.Prelude.{◌≡◌};

    /// Creates a list of these letters, in order.
    pub fn new(letters: Vec<StateLetter>) -> Self
        ensures { result ≡ letters.items }
    {
        LetterList { letters }
    }

    /// Returns the letters, in order.
    pub fn items(&self) -> &[StateLetter]
        ensures { result.now ≡ self.now }
    {
        &self.letters
    }
}

/// A kind of event, such as `sched_switch`, and the fields of its records.
#[derive(Drop)]
pub struct Kind {
    /// The number of the kind, which is in the first two bytes of its records.
    pub number: u16,
    /// The name of the kind.
    pub name: Text,
    /// The fields that are decoded, in the order of printing.
    pub fields: FieldList,
}

/// A list of kinds of events. In contracts, it is the list of its kinds.
#[derive(Drop)]
pub struct KindList {
    kinds: Vec<Kind>,
}

impl Model for KindList {
    ghost use Rattle.std.specs.Prelude.{List};
    ghost use Rattle.page_spec.specs.declared.layout.Kind.{Kind};

    ghost Value = { List Kind };

    ghost view = { λ l. l.kinds.items };
}

impl KindList {
    ghost use Rattle.std.specs.Prelude.{◌≡◌};

    /// Creates a list of these kinds, in order.
    pub fn new(kinds: Vec<Kind>) -> Self
        ensures { result ≡ kinds.items }
    {
        KindList { kinds }
    }

    /// Returns the kinds, in order.
    pub fn items(&self) -> &[Kind]
        ensures { result.now ≡ self.now }
    {
        &self.kinds
    }
}

/// The layout of the pages of a kernel's ring buffers, and of the event records in the pages.
#[derive(Drop)]
pub struct Layout {
    /// The size of a page in bytes.
    pub page: u32,
    /// The size of a page's header in bytes. The records follow the header.
    pub header: u32,
    /// The letters of task states. A state is printed as the first letter that represents one of
    /// its bits, or as `R` if no letter does.
    pub letters: LetterList,
    /// The kinds of events. If several kinds have the same number, the first kind is used.
    pub kinds: KindList,
}
