//! Bytes in and out, as the caller sees it: `copy_in` is from the program's memory to the caller, `copy_out` from the caller
//! to the program's memory. No byte stands past the greatest address, so a copy that would pass it is Unmapped. Copies and tests
//! go by stretches: one look-up finds all bytes that stand together in a run.
ghost use Rattle.std.specs.Prelude.{◌≡◌, ◌+◌, ◌/◌, ◌%◌, ◌^◌, ◌<◌, ◌≤◌, IfOk, IfNone, IfSome, OnOk, OnErr, None, Some, option_map, length, take};
ghost use Rattle.std.specs.FinMap.{get};
ghost use Rattle.memory_model.specs.Access.{range_fault, or_fault, bytes_at, put_bytes, is_writable, to_read, to_write};
ghost use Rattle.memory.specs.Access.{right_of};
ghost use Rattle.memory.specs.CopyFault.{fault_of};

use crate::fault::CopyFault;
use crate::place::part_of;
use crate::space::Space;
use byte_list::Bytes;
use memory_model::{Bus, BusFault, Rights, Width};
use std::alloc::{AllocError, Global};

/// What is done with bytes.
#[derive(Clone, Copy)]
enum Access {
    Read,
    Write,
}

impl Access {
    fn is_allowed(self, rights: Rights) -> bool
        ensures { result ≡ right_of self rights }
    {
        match self {
            Access::Read => rights.read,
            Access::Write => rights.write,
        }
    }
}

impl Space {
    /// The byte at an address, whatever its rights; None where there is no page.
    pub fn byte(&self, at: u32) -> Option<u8>
        ensures { result ≡ option_map (λ c. c.byte) (get self.now at) }
    {
        let (byte, _) = self.cell(u64::from(at))?;
        Some(byte)
    }

    /// Whether n bytes from an address on may all be written. No byte stands past the greatest address.
    pub fn writable(&self, at: u32, n: u32) -> bool
        ensures { result ≡ is_writable self.now at n }
    {
        self.first_fault(Access::Write, at, n as usize).is_none()
    }

    /// The same for as many bytes as these are.
    pub fn takes(&self, at: u32, bytes: &[u8]) -> bool
        ensures { result ≡ is_writable self.now at (length bytes.now) }
    {
        self.first_fault(Access::Write, at, bytes.len()).is_none()
    }

    /// A copy of n bytes from an address on. Where one of them may not be read, the lowest such byte decides, and no
    /// memory is asked for.
    pub fn copy_in(&self, alloc: Global, at: u32, n: u32) -> Result<Bytes, CopyFault>
        ensures ok { IfOk result (λ bytes. bytes ≡ bytes_at self.now at n) }
        ensures fault { fault_of result ≡ range_fault to_read self.now at n }
    {
        if let Some(fault) = self.first_fault(Access::Read, at, n as usize) {
            return Err(CopyFault::Fault(fault));
        }
        self.copy_of(alloc, at, n)
            .map_err(|_| CopyFault::OutOfMemory)
    }

    /// Writes bytes from an address on. Where one of them may not be written, the lowest such byte decides, and nothing
    /// changes. Takes no memory.
    pub fn copy_out(&mut self, at: u32, bytes: &[u8]) -> Result<(), BusFault>
        ensures answer { result ≡ or_fault (range_fault to_write self.old at (length bytes.now)) tt }
        ensures ok { OnOk result (self.new ≡ put_bytes self.old at bytes.now) }
        ensures err { OnErr result (self.new ≡ self.old) }
    {
        if let Some(fault) = self.first_fault(Access::Write, at, bytes.len()) {
            return Err(fault);
        }
        let mut done = 0;
        while done < bytes.len() {
            done += self.put_some(at + done as u32, &bytes[done..]);
        }
        Ok(())
    }

    /// The byte at an address and the rights of its page; None past the greatest address too.
    pub(crate) fn cell(&self, at: u64) -> Option<(u8, Rights)>
        ensures cell { option_map (λ c. record { byte = c.0; rights = c.1 }) result ≡ get self.now at }
        ensures within { IfSome result (λ _. at < 2 ^ 32) }
    {
        let (own, shared) = (&self.own, self.shared.as_slice());
        let at = u32::try_from(at).ok()?;
        let (part, write) = part_of(own, shared, at / 4)?;
        let rights = Rights {
            read: part.read,
            write,
            execute: part.execute,
        };
        Some((part.byte(at), rights))
    }

    /// Why n bytes from an address on may not be accessed: the lowest such byte decides.
    fn first_fault(&self, access: Access, at: u32, n: usize) -> Option<BusFault>
        ensures fault { result ≡ range_fault (right_of access) self.now at n }
        ensures within { IfNone result (at + n ≤ 2 ^ 32) }
    {
        let mut done = 0;
        while done < n {
            let Some((bytes, rights)) = self.stretch(u64::from(at) + done as u64, n - done) else {
                return Some(BusFault::Unmapped);
            };
            if !access.is_allowed(rights) {
                return Some(BusFault::NoRight);
            }
            done += bytes.len();
        }
        None
    }

    /// A copy of n bytes from an address on, which may all be read.
    fn copy_of(&self, alloc: Global, at: u32, n: u32) -> Result<Bytes, AllocError>
        requires readable { range_fault to_read self.now at n ≡ None }
        requires within { at + n ≤ 2 ^ 32 }
        ensures { IfOk result (λ bytes. bytes ≡ bytes_at self.now at n) }
    {
        let mut bytes = Vec::with_capacity(alloc, n as usize)?;
        while bytes.len() < n as usize {
            let done = bytes.len();
            let place = u64::from(at) + done as u64;
            let Some((found, _)) = self.stretch(place, n as usize - done) else {
                unreachable!()
            };
            bytes.extend_from_slice(found)?;
        }
        Ok(Bytes::new(bytes))
    }

    /// Puts the first of these bytes at an address that may be written, and answers how many: whole words as far as one run has
    /// them, and one byte where there is none.
    fn put_some(&mut self, at: u32, bytes: &[u8]) -> usize
        requires some { 0 < length bytes.now }
        requires writable { range_fault to_write self.old at 1 ≡ None }
        ensures some { 0 < result }
        ensures within { result ≤ length bytes.now }
        ensures put { self.new ≡ put_bytes self.old at (take result bytes.now) }
    {
        let count = self.put_words(at, bytes);
        if count > 0 {
            return count;
        }
        let _ = self.store(at, Width::Byte, u32::from(bytes[0]));
        1
    }

    /// Puts the first of these bytes from an address on, and answers how many: the whole words that one run has there. None where
    /// the address is no multiple of four.
    fn put_words(&mut self, at: u32, bytes: &[u8]) -> usize
        ensures within { result ≤ length bytes.now }
        ensures put { self.new ≡ put_bytes self.old at (take result bytes.now) }
    {
        if at % 4 != 0 {
            return 0;
        }
        let (words, _) = bytes.as_chunks::<4>();
        4 * self.own.put(at / 4, words)
    }
}
