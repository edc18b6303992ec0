//! Message texts in memory, as sheets.
ghost use Rattle.std.specs.Prelude.{◌≡◌, ◌≤◌, ℕ, true, length, take, IfOk};
ghost use Rattle.std.specs.List.{concat};
ghost use Rattle.vault.specs.Changes.{IsPage};
ghost use Rattle.vault.specs.Sheets.{are_sheets};

use mailtext::MailText;
use std::alloc::{AllocError, Global};
use std::marker::Model;

/// The octets of a sheet. The last sheet of a text may have fewer.
pub const SHEET_OCTETS: usize = 4096;

/// A sheet of a text. Contracts see its octets.
#[derive(Drop)]
struct Sheet {
    octets: Vec<u8>,
}

impl Model for Sheet {
    ghost use Rattle.std.specs.Prelude.{List, ℕ};

    ghost Value = { List ℕ };

    ghost view = { λ sheet. sheet.octets.items };
}

impl Sheet {
    /// A sheet of a copy of these octets. An `Err` means that memory ran out.
    fn copy_of(alloc: Global, octets: &[u8]) -> Result<Sheet, AllocError>
        ensures { IfOk result (λ sheet. sheet ≡ octets.now) }
    {
        let octets = Vec::from_slice(alloc, octets)?;
        Ok(Sheet { octets })
    }

    fn octets(&self) -> &[u8]
        ensures { result.now ≡ self.now }
    {
        self.octets.as_slice()
    }
}

/// Copies octets, from octet `from` on, into the front of the buffer: all that are left, or as many
/// as fit. Returns how many.
fn copy_from(octets: &[u8], from: usize, buffer: &mut [u8]) -> usize
    ensures within { result ≤ length buffer.new }
    ensures page { IsPage octets.now from (length buffer.new) (take result buffer.new) }
{
    if from >= octets.len() {
        return 0;
    }
    let left = &octets[from..];
    let len = left.len().min(buffer.len());
    buffer[..len].copy_from_slice(&left[..len]);
    len
}

/// A copy of the octets as sheets.
fn sheets_of(alloc: Global, octets: &[u8]) -> Result<Vec<Sheet>, AllocError>
    ensures octets { IfOk result (λ sheets. concat sheets.items ≡ octets.now) }
    ensures sheets { IfOk result (λ sheets. are_sheets sheets.items ≡ true) }
{
    let mut sheets = Vec::new(alloc);
    let mut left = octets;
    while !left.is_empty() {
        let sheet = &left[..left.len().min(SHEET_OCTETS)];
        sheets.push(Sheet::copy_of(alloc, sheet)?)?;
        left = &left[sheet.len()..];
    }
    Ok(sheets)
}

/// A text as sheets of [`SHEET_OCTETS`], each allocated by itself, so that a long text needs no
/// long allocation. Contracts see its octets.
#[derive(Drop)]
pub struct SheetText {
    sheets: Vec<Sheet>,
    octets: usize,
}

impl Model for SheetText {
    ghost use Rattle.std.specs.Prelude.{List, ℕ, ◌≡◌, true, length};
    ghost use Rattle.std.specs.List.{concat};
    ghost use Rattle.vault.specs.Sheets.{are_sheets};

    ghost Value = { List ℕ };

    ghost view = { λ text. concat text.sheets.items };

    ghost invariant = { λ text. (are_sheets text.sheets.items ≡ true)
        × (text.octets ≡ length (concat text.sheets.items)) };
}

impl SheetText {
    /// A copy of a text. An `Err` means that memory ran out.
    pub(crate) fn copy_of(alloc: Global, text: &MailText) -> Result<SheetText, AllocError>
        ensures { IfOk result (λ copy. copy ≡ text.now) }
    {
        let octets = text.bytes();
        let sheets = sheets_of(alloc, octets)?;
        Ok(SheetText {
            sheets,
            octets: octets.len(),
        })
    }

    /// How many octets it has.
    pub(crate) fn octets(&self) -> usize
        ensures { result ≡ length self.now }
    {
        self.octets
    }

    /// Copies octets, from octet `from` on, into the front of the buffer: through the end of a
    /// sheet, or as many as fit. Returns how many: at least one if any is left and the buffer
    /// isn't empty.
    pub(crate) fn read(&self, from: usize, buffer: &mut [u8]) -> usize
        ensures within { result ≤ length buffer.new }
        ensures page { IsPage self.now from (length buffer.new) (take result buffer.new) }
    {
        match self.sheets.get(from / SHEET_OCTETS) {
            Some(sheet) => copy_from(sheet.octets(), from % SHEET_OCTETS, buffer),
            None => 0,
        }
    }
}
