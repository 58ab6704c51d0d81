ghost use Rattle.std.specs.Prelude.{◌≡◌, ◌+◌, ◌-◌, ◌*◌, ◌<◌, ◌≤◌, [], ◌∷◌, ◌++◌, true, false, length, take, max, OnOk, OnErr};
ghost use Rattle.lw_rows.specs.RowStack.{IsRegion, empty_row, last_row, bit_in, with_bit};

use super::row_mark::RowMark;
use super::words::{push_again, push_zeros};
use std::alloc::{AllocError, Global};
use std::marker::Model;

/// A stack of rows of bits, each of as many words of 64 bits. Rows and bits are counted from 0.
/// The spare rows are those that may be pushed before more room is reserved.
#[derive(Drop)]
pub struct Rows {
    // the rows, one after another
    words: Vec<u64>,
    width: usize,
    count: usize,
    spare: usize,
}

impl Model for Rows {
    ghost use Rattle.std.specs.Prelude.{◌≡◌, ◌+◌, ◌*◌, ◌≤◌, length, vec_capacity};
    ghost use Rattle.lw_rows.specs.RowStack.{Region, region_code};
    ghost use Rattle.lw_rows.specs.Private.RowWords.{rows_of};

    ghost Value = { Region };

    ghost coded = { region_code };

    ghost view = { λ a. record { width = a.width; rows = rows_of a.width a.count a.words.items; spare = a.spare } };

    ghost invariant = { λ a. (1 ≤ a.width) × (a.width ≤ 64) × (length a.words.items ≡ a.count * a.width)
        × (length a.words.items + a.spare * a.width ≤ vec_capacity a.words) };
}

impl Rows {
    /// A stack without rows and without spare rows. Each of its rows will have `width` words of 64
    /// bits.
    pub fn new(alloc: Global, width: usize) -> Self
        requires at_least_one { 1 ≤ width }
        requires at_most_64 { width ≤ 64 }
        ensures { result ≡ record { width = width; rows = []; spare = 0 } }
    {
        Rows {
            words: Vec::new(alloc),
            width,
            count: 0,
            spare: 0,
        }
    }

    /// Sees that there are at least `n` spare rows. It fails where there is no memory for them, and
    /// then all is as before.
    pub fn reserve(&mut self, n: usize) -> Result<(), AllocError>
        ensures ok { OnOk result (self.new ≡ record self.old { spare = max self.old.spare n }) }
        ensures err { OnErr result (self.new ≡ self.old) }
        ensures region { IsRegion self.new }
    {
        if n <= self.spare {
            return Ok(());
        }
        let more = n.checked_mul(self.width).ok_or(AllocError)?;
        self.words.try_reserve(more)?;
        self.spare = n;
        Ok(())
    }

    /// Pushes a copy of the last row, or an empty row where there is none.
    pub fn push_copy(&mut self)
        requires { 1 ≤ self.old.spare }
        ensures pushed { self.new ≡ record self.old { rows = self.old.rows ++ last_row self.old ∷ []; spare = self.old.spare - 1 } }
        ensures region { IsRegion self.new }
    {
        if self.count == 0 {
            self.push_empty();
            return;
        }
        push_again(&mut self.words, self.width);
        self.count += 1;
        self.spare -= 1;
    }

    /// Pushes an empty row, which has no bit.
    pub fn push_empty(&mut self)
        requires { 1 ≤ self.old.spare }
        ensures pushed { self.new ≡ record self.old { rows = self.old.rows ++ empty_row self.old.width ∷ []; spare = self.old.spare - 1 } }
        ensures region { IsRegion self.new }
    {
        push_zeros(&mut self.words, self.width);
        self.count += 1;
        self.spare -= 1;
    }

    /// Takes off the last row, which is then spare.
    pub fn pop(&mut self)
        requires { 1 ≤ length self.old.rows }
        ensures popped { self.new ≡ record self.old { rows = take (length self.old.rows - 1) self.old.rows; spare = self.old.spare + 1 } }
        ensures region { IsRegion self.new }
    {
        let below = RowMark {
            count: self.count - 1,
        };
        self.release(below);
    }

    /// Sets a bit of the last row.
    pub fn set(&mut self, bit: usize)
        requires row { 1 ≤ length self.old.rows }
        requires inside { bit < 64 * self.old.width }
        ensures set { self.new ≡ record self.old { rows = with_bit self.old bit true } }
        ensures region { IsRegion self.new }
    {
        let place = self.words.len() - self.width + bit / 64;
        self.words[place] |= 1 << (bit % 64);
    }

    /// Clears a bit of the last row.
    pub fn clear(&mut self, bit: usize)
        requires row { 1 ≤ length self.old.rows }
        requires inside { bit < 64 * self.old.width }
        ensures cleared { self.new ≡ record self.old { rows = with_bit self.old bit false } }
        ensures region { IsRegion self.new }
    {
        let place = self.words.len() - self.width + bit / 64;
        self.words[place] &= !(1 << (bit % 64));
    }

    /// Whether the row has the bit.
    pub fn test(&self, row: usize, bit: usize) -> bool
        requires row { row < length self.now.rows }
        requires inside { bit < 64 * self.now.width }
        ensures { result ≡ bit_in self.now row bit }
    {
        let word = self.words[row * self.width + bit / 64];
        word >> (bit % 64) & 1 == 1
    }

    /// How many rows there are.
    pub fn count(&self) -> usize
        ensures count { result ≡ length self.now.rows }
        ensures region { IsRegion self.now }
    {
        self.count
    }

    /// The present count of rows, to which `release` can cut the stack back.
    pub fn mark(&self) -> RowMark
        ensures { result ≡ length self.now.rows }
    {
        RowMark { count: self.count }
    }

    /// Takes off the rows that were pushed since the mark was taken. They are then spare.
    pub fn release(&mut self, mark: RowMark)
        requires { mark ≤ length self.old.rows }
        ensures released { self.new
            ≡ record self.old { rows = take mark self.old.rows; spare = self.old.spare + (length self.old.rows - mark) } }
        ensures region { IsRegion self.new }
    {
        self.words.truncate(mark.count * self.width);
        self.spare += self.count - mark.count;
        self.count = mark.count;
    }
}
