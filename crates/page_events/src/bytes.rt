//! Reads little-endian numbers from slices of bytes, and returns prefixes and suffixes of slices.
//! This module doesn't depend on the format of a page.
ghost use Rattle.std.specs.Prelude.{◌≡◌, ◌≤◌, length, take, drop};
ghost use Rattle.page_spec.specs.Fields.{half_of, long_of, number_in, size_of, word_of};

use page_spec::Width;

/// Returns the little-endian number in the first two bytes.
#[inline(always)]
pub(crate) fn half(bytes: &[u8]) -> u16
    requires { 2 ≤ length bytes.now }
    ensures { result ≡ half_of bytes.now }
{
    u16::from_le_bytes([bytes[0], bytes[1]])
}

/// Returns the little-endian number in the first four bytes.
#[inline(always)]
pub(crate) fn word(bytes: &[u8]) -> u32
    requires { 4 ≤ length bytes.now }
    ensures { result ≡ word_of bytes.now }
{
    u32::from_le_bytes([bytes[0], bytes[1], bytes[2], bytes[3]])
}

/// Returns the little-endian number in the first eight bytes.
#[inline(always)]
pub(crate) fn long(bytes: &[u8]) -> u64
    requires { 8 ≤ length bytes.now }
    ensures { result ≡ long_of bytes.now }
{
    u64::from_le_bytes([
        bytes[0], bytes[1], bytes[2], bytes[3], bytes[4], bytes[5], bytes[6], bytes[7],
    ])
}

/// Returns the number of bytes of a number with this width.
#[inline(always)]
pub(crate) fn size(width: Width) -> usize
    ensures size { result ≡ size_of width }
    ensures small { result ≤ 8 }
{
    match width {
        Width::One => 1,
        Width::Two => 2,
        Width::Four => 4,
        Width::Eight => 8,
    }
}

/// Returns the little-endian number of this width in the first bytes.
#[inline(always)]
pub(crate) fn number(width: Width, bytes: &[u8]) -> u64
    requires { size_of width ≤ length bytes.now }
    ensures { result ≡ number_in width bytes.now }
{
    match width {
        Width::One => u64::from(bytes[0]),
        Width::Two => u64::from(half(bytes)),
        Width::Four => u64::from(word(bytes)),
        Width::Eight => long(bytes),
    }
}

/// Returns the bytes after the first `from` bytes, or no bytes if there are fewer than `from`.
#[inline(always)]
pub(crate) fn bytes_from(bytes: &[u8], from: usize) -> &[u8]
    ensures { result.now ≡ drop from bytes.now }
{
    if from < bytes.len() {
        &bytes[from..]
    } else {
        &[]
    }
}

/// Returns the first `most` bytes, or all bytes if there are fewer.
#[inline(always)]
pub(crate) fn bytes_to(bytes: &[u8], most: usize) -> &[u8]
    ensures { result.now ≡ take most bytes.now }
{
    if most < bytes.len() {
        &bytes[..most]
    } else {
        bytes
    }
}
