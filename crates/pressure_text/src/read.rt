//! Parses pressure files.
//!
//! No command of this repository parses pressure files. The parser is for other programs, and for
//! the law `law_read_again`: the output of [`write_file`](crate::write_file) can be parsed again.
ghost use Rattle.std.specs.Prelude.{◌≡◌, ◌↔◌, ◌≤◌, ◌<◌, IfSome, IsNone, MatchOption, None, Some};
ghost use Rattle.std.specs.Prelude.{length};
ghost use Rattle.std.specs.Char.{is_ascii_digit};
ghost use Rattle.std.specs.List.{prefix_len};
ghost use Rattle.pressure_text.specs.FileRead.{TakesPiece, average_at, suffix, file_at, irq_at};
ghost use Rattle.pressure_text.specs.FileRead.{line_at, number_at, past, two_at};
ghost use Rattle.pressure_text.specs.PrintedLines.{IrqReadsAgain, ReadsAgain, Shows, ShowsIrq};
ghost use Rattle.pressure_text.specs.declared.read.PressureFile.{PressureFile};
ghost use Rattle.pressure_text.specs.declared.read.PressureLine.{PressureLine};

use psi_base::{Level, read_number};
use std::marker::Model;

/// The greatest average (100 percent), in hundredths of a percent.
const ALL_TIME: u32 = 10_000;

/// The numbers in one line of a pressure file.
#[derive(Clone, Copy, Debug, PartialEq, Eq)]
pub struct PressureLine {
    /// The averages over 10, 60 and 300 seconds, in hundredths of a percent.
    pub hundredths: [u32; 3],
    /// The total stall time (us).
    pub total_us: u64,
}

/// The numbers in a pressure file of two lines.
#[derive(Clone, Copy, Debug, PartialEq, Eq)]
pub struct PressureFile {
    /// The numbers in the `some` line.
    pub some_line: PressureLine,
    /// The numbers in the `full` line.
    pub full_line: PressureLine,
}

// Returns the number of digits at the start of the bytes.
fn digits_at(bytes: &[u8]) -> usize
    ensures count { result ≡ prefix_len is_ascii_digit bytes.now }
    ensures within { result ≤ length bytes.now }
{
    bytes
        .iter()
        .take_while(|byte| byte.is_ascii_digit())
        .count()
}

// The bytes that the parser hasn't consumed yet.
#[derive(Drop)]
struct Rest<'a> {
    bytes: &'a [u8],
}

impl<'a> Model for Rest<'a> {
    ghost use Rattle.std.specs.Prelude.{List, ℕ};

    ghost Value = { List ℕ };

    ghost view = { λ r. r.bytes.now };
}

impl<'a> Rest<'a> {
    // Consumes `text` if the bytes begin with it. Returns `None` otherwise.
    fn skip(&mut self, text: &[u8]) -> Option<()>
        ensures { MatchOption result (suffix text.now self.old ≡ None)
            (λ _. suffix text.now self.old ≡ Some self.new) }
    {
        match self.bytes.strip_prefix(text) {
            Some(bytes) => {
                self.bytes = bytes;
                Some(())
            }
            None => None,
        }
    }

    // Consumes the digits at the start, and returns the number that they spell. Returns `None` if
    // there are no digits, if there is a leading zero (except in `0`), or if the number doesn't fit
    // in 64 bits.
    #[tactic(auto, unfolding(crate::specs::FileRead::number_at))]
    fn number(&mut self) -> Option<u64>
        ensures { TakesPiece result self.new (number_at self.old) }
    {
        let digits = digits_at(self.bytes);
        let number = read_number(&self.bytes[..digits])?;
        self.bytes = &self.bytes[digits..];
        Some(number)
    }

    // Consumes two digits, and returns the number that they spell. Returns `None` if the bytes
    // don't begin with two digits.
    #[tactic(auto, unfolding(crate::specs::FileRead::two_at))]
    fn two_digits(&mut self) -> Option<u32>
        ensures found { TakesPiece result self.new (two_at self.old) }
        ensures small { IfSome result (λ n. n < 100) }
    {
        if self.bytes.len() < 2 {
            return None;
        }
        let tens = self.bytes[0];
        let ones = self.bytes[1];
        if !tens.is_ascii_digit() || !ones.is_ascii_digit() {
            return None;
        }
        self.bytes = &self.bytes[2..];
        Some(u32::from(tens - b'0') * 10 + u32::from(ones - b'0'))
    }

    // Consumes an average in percent with two decimals, and returns it in hundredths of a percent.
    // Returns `None` if it is malformed or above 100.00 percent.
    #[tactic(auto, unfolding(crate::specs::FileRead::average_at))]
    fn average(&mut self) -> Option<u32>
        ensures { TakesPiece result self.new (average_at self.old) }
    {
        let whole = self.number()?;
        self.skip(b".")?;
        let part = self.two_digits()?;
        if whole > 100 {
            return None;
        }
        let hundredths = whole as u32 * 100 + part;
        if hundredths > ALL_TIME {
            return None;
        }
        Some(hundredths)
    }

    // Consumes `label` and an average after it, and returns the average in hundredths of a percent.
    fn average_past(&mut self, label: &[u8]) -> Option<u32>
        ensures { TakesPiece result self.new (past label.now average_at self.old) }
    {
        self.skip(label)?;
        self.average()
    }

    // Consumes `label` and a number after it, and returns the number.
    fn number_past(&mut self, label: &[u8]) -> Option<u64>
        ensures { TakesPiece result self.new (past label.now number_at self.old) }
    {
        self.skip(label)?;
        self.number()
    }

    // Consumes the line of level `level` (`some` or `full`) with its newline, and returns its
    // numbers. Returns `None` if the line is malformed.
    #[tactic(auto, unfolding(crate::specs::FileRead::line_at))]
    fn line(&mut self, level: Level) -> Option<PressureLine>
        ensures { TakesPiece result self.new (line_at level self.old) }
    {
        self.skip(level.word().as_bytes())?;
        let short = self.average_past(b" avg10=")?;
        let middle = self.average_past(b" avg60=")?;
        let long = self.average_past(b" avg300=")?;
        let total_us = self.number_past(b" total=")?;
        self.skip(b"\n")?;
        Some(PressureLine {
            hundredths: [short, middle, long],
            total_us,
        })
    }
}

// Parses a pressure file of exactly two lines. Returns `None` if the file is malformed.
#[tactic(auto, unfolding(crate::specs::FileRead::file_at))]
fn file_of(bytes: &[u8]) -> Option<PressureFile>
    ensures { result ≡ file_at bytes.now }
{
    let mut rest = Rest { bytes };
    let some_line = rest.line(Level::SomeStalled)?;
    let full_line = rest.line(Level::FullStalled)?;
    if !rest.bytes.is_empty() {
        return None;
    }
    Some(PressureFile {
        some_line,
        full_line,
    })
}

// Parses a pressure file that has only a `full` line. Returns `None` if the file is malformed.
#[tactic(auto, unfolding(crate::specs::FileRead::irq_at))]
fn irq_of(bytes: &[u8]) -> Option<PressureLine>
    ensures { result ≡ irq_at bytes.now }
{
    let mut rest = Rest { bytes };
    let line = rest.line(Level::FullStalled)?;
    if !rest.bytes.is_empty() {
        return None;
    }
    Some(line)
}

/// Parses a pressure file: the `some` line and the `full` line, each with its newline, and no
/// further bytes. Averages are from 0.00 to 100.00 percent with two decimals, totals are below 2^64
/// us, and numbers have no leading zeros. Returns `None` if and only if the bytes aren't such a
/// file.
pub fn read_file(bytes: &[u8]) -> Option<PressureFile>
    ensures exact { (file : PressureFile) → (result ≡ Some file) ↔ Shows bytes.now file }
    ensures none { IsNone result ↔ ((file : PressureFile) → ¬ Shows bytes.now file) }
{
    file_of(bytes)
}

/// Parses the pressure file of interrupts: the `full` line with its newline, and no further bytes.
/// Averages and totals have the same ranges and forms as for [`read_file`]. Returns `None` if and
/// only if the bytes aren't such a file.
pub fn read_irq(bytes: &[u8]) -> Option<PressureLine>
    ensures exact { (line : PressureLine) → (result ≡ Some line) ↔ ShowsIrq bytes.now line }
    ensures none { IsNone result ↔ ((line : PressureLine) → ¬ ShowsIrq bytes.now line) }
{
    irq_of(bytes)
}

/// Round trips: [`read_file`] parses the output of [`write_file`](crate::write_file), and
/// [`read_irq`] parses the output of [`write_irq`](crate::write_irq) after the head line. The
/// parsed totals are the written totals in whole microseconds. The parsed averages are the written
/// averages in hundredths of a percent.
pub fn law_read_again()
    ensures file { ReadsAgain }
    ensures irq { IrqReadsAgain }
{}
