//! Reading a solution file that arrives piece by piece, and handing out its records as they become whole.

ghost use Rattle.std.specs.Prelude.{◌≡◌, ◌≢◌, ◌+◌, ◌<◌, ◌≤◌, ◌^◌, ◌++◌, ℕ, List, [], length, drop, take, is_some, None, Some, Err, OnOk, OnErr, IfOk, IfErr, IfSome, IfNone};
ghost use Rattle.tws_file.specs.declared.file_fault.FileFault.{FileFault as Fault};
ghost use Rattle.std.specs.List.{AllByRecursion};
ghost use Rattle.tws_file.specs.Text.{Record as Plain, IsRecord};
ghost use Rattle.tws_reader.specs.PartReader.{nothing_read, failed, HasRead, HasRoom, HandsOut, FailsPart, AppendsPart, IsEnd, IsWhole};
ghost use Rattle.tws_reader.specs.Steps.{IsShort, FailsForGood, FailsAfter, BeginsWithHead, ReadsOn, Continues, RecordsFail, header_back};

use crate::header::read_header;
use crate::reading::read_records;
use std::alloc::{Allocator, Global};
use std::marker::Model;
use tws_file::{Bytes, FileFault, Records, TwsFile};

/// Reads a solution file that arrives piece by piece, and hands out its records as they become whole, so that it keeps
/// none.
#[derive(Drop)]
pub struct PartReader<A: Allocator + Copy = Global> {
    alloc: A,
    /// The fault that the bytes had, which no further bytes can cure.
    fault: Option<FileFault>,
    /// The header, as a file without records; `None` until it is whole.
    header: Option<TwsFile<A>>,
    /// The offset of `rest`, counted from the start of the file.
    offset: u64,
    /// The bytes that arrived and could not be read yet.
    rest: Vec<u8, A>,
}

impl<A: Allocator + Copy> Model for PartReader<A> {
    ghost use Rattle.tws_reader.specs.PartReader.{PartReading, part_reading_of};

    ghost Value = { PartReading };

    ghost view = { part_reading_of };
}

// The header that the bytes begin with, as a file without records, and the bytes after it; `None` if it is cut.
fn read_head<A: Allocator + Copy>(
    alloc: A,
    bytes: &[u8],
) -> Result<Option<(TwsFile<A>, &[u8])>, FileFault>
    ensures head { IfOk result (λ r. IfSome r (λ h. BeginsWithHead bytes.now h.0 h.1.now)) }
    ensures short { IfOk result (λ r. IfNone r (IsShort bytes.now)) }
    ensures fault { IfErr result (FailsForGood bytes.now) }
{
    let Some(header) = read_header(bytes)? else {
        return Ok(None);
    };
    let extra = Vec::from_slice(alloc, header.extra)?;
    let file = TwsFile {
        ruleset: header.ruleset,
        word: header.word,
        extra: Bytes::of(extra),
        records: Records::of(Vec::new(alloc)),
    };
    Ok(Some((file, header.records)))
}

// Appends the whole records that these bytes begin with, which are at `offset` in the file. Returns how many bytes were
// read. On error nothing changes.
fn read_on<A: Allocator + Copy>(
    alloc: A,
    records: &mut Records<A>,
    offset: u64,
    bytes: &[u8],
) -> Result<usize, FileFault>
    requires { offset + length bytes.now < 2 ^ 64 }
    ensures read { IfOk result (ReadsOn records.old records.new bytes.now) }
    ensures unchanged { OnErr result (records.new ≡ records.old) }
    ensures fault { IfErr result (RecordsFail bytes.now offset) }
{
    let (more, rest) = read_records(alloc, offset, bytes)?;
    records.append(more)?;
    Ok(bytes.len() - rest.len())
}

// Reads what is whole in these bytes, which are at `offset` in the file, and appends the records. Returns how many
// bytes were read. On error nothing changes.
fn advance<A: Allocator + Copy>(
    alloc: A,
    header: &mut Option<TwsFile<A>>,
    records: &mut Records<A>,
    offset: u64,
    bytes: &[u8],
) -> Result<usize, FileFault>
    requires { offset + length bytes.now < 2 ^ 64 }
    ensures continues { IfOk result (Continues header.old header.new records.old records.new offset bytes.now) }
    ensures unread { OnErr result (header.new ≡ header.old) }
    ensures unlisted { OnErr result (records.new ≡ records.old) }
    ensures fault { IfErr result (FailsAfter header.old offset bytes.now) }
{
    if header.is_some() {
        return read_on(alloc, records, offset, bytes);
    }
    let Some((head, rest)) = read_head(alloc, bytes)? else {
        return Ok(0);
    };
    let start = bytes.len() - rest.len();
    let count = read_on(alloc, records, start as u64, rest)?;
    *header = Some(head);
    Ok(start + count)
}

// Drops the first `count` bytes.
fn drop_first<A: Allocator>(bytes: &mut Vec<u8, A>, count: usize)
    requires { count ≤ length bytes.old.items }
    ensures { bytes.new.items ≡ drop count bytes.old.items }
{
    if count > 0 {
        bytes.copy_within(count.., 0);
        bytes.truncate(bytes.len() - count);
    }
}

// Drops the header, unless there was one before.
fn take_back<A: Allocator>(header: &mut Option<TwsFile<A>>, before: bool)
    ensures { header.new ≡ header_back before header.old }
{
    if !before {
        *header = None;
    }
}

// Reads what is whole in the kept bytes and a piece after them, and keeps the rest. If none were kept, the piece is
// read in place. On error nothing changes.
fn read_piece<A: Allocator + Copy>(
    alloc: A,
    header: &mut Option<TwsFile<A>>,
    records: &mut Records<A>,
    offset: u64,
    rest: &mut Vec<u8, A>,
    piece: &[u8],
) -> Result<usize, FileFault>
    requires { offset + length rest.old.items + length piece.now < 2 ^ 64 }
    ensures continues { IfOk result (Continues header.old header.new records.old records.new offset (rest.old.items ++ piece.now)) }
    ensures left { IfOk result (λ count. rest.new.items ≡ drop count (rest.old.items ++ piece.now)) }
    ensures unread { OnErr result (header.new ≡ header.old) }
    ensures unlisted { OnErr result (records.new ≡ records.old) }
    ensures unkept { OnErr result (rest.new.items ≡ rest.old.items) }
    ensures fault { IfErr result (FailsAfter header.old offset (rest.old.items ++ piece.now)) }
{
    if rest.is_empty() {
        let before = header.is_some();
        let listed = records.len();
        let count = advance(alloc, header, records, offset, piece)?;
        if rest.extend_from_slice(&piece[count..]).is_err() {
            take_back(header, before);
            records.truncate(listed);
            return Err(FileFault::Memory);
        }
        return Ok(count);
    }
    let before = rest.len();
    rest.extend_from_slice(piece)?;
    match advance(alloc, header, records, offset, rest) {
        Ok(count) => {
            drop_first(rest, count);
            Ok(count)
        }
        Err(fault) => {
            rest.truncate(before);
            Err(fault)
        }
    }
}

impl<A: Allocator + Copy> PartReader<A> {
    /// A reader that has received nothing. Does not allocate.
    pub fn new(alloc: A) -> Self
        ensures value { result ≡ nothing_read }
        ensures read { HasRead result [] [] }
    {
        PartReader {
            alloc,
            fault: None,
            header: None,
            offset: 0,
            rest: Vec::new(alloc),
        }
    }

    // A reader whose bytes had this fault. It keeps nothing else, as no later call reads it.
    fn stopped(alloc: A, fault: FileFault) -> Self
        ensures { result ≡ failed fault }
    {
        PartReader {
            fault: Some(fault),
            ..PartReader::new(alloc)
        }
    }

    /// Takes the next piece of the file. Returns the records that it completes. All pieces together have at most
    /// 18,446,744,073,709,551,615 bytes.
    ///
    /// # Errors
    ///
    /// The fault of the bytes so far if no further bytes can cure it, so any but `ShortHeader` and `ShortRecord`. It is
    /// kept, all else is dropped, and every later call returns it. After `Memory` the reader is as it was before the piece.
    pub fn push(&mut self, piece: &[u8]) -> Result<Records<A>, FileFault>
        requires { HasRoom self.old piece.now }
        ensures hands_out { IfOk result (λ more. HandsOut self.old piece.now more self.new) }
        ensures fits { IfOk result (AllByRecursion IsRecord) }
        ensures going { OnOk result (self.new.fault ≡ None) }
        ensures memory { result ≡ Err FileFault.Memory → self.new ≡ self.old }
        ensures fault { IfErr result (λ e. e ≢ FileFault.Memory → FailsPart self.old piece.now self.new e) }
        ensures kept { (fault : Fault) → self.old.fault ≡ Some fault → result ≡ Err fault }
        // An empty piece does not allocate.
        ensures empty { self.old.fault ≡ None → piece.now ≡ [] → OnErr result ⊥ }
    {
        let mut records = Records::of(Vec::new(self.alloc));
        match self.push_into(piece, &mut records) {
            Ok(()) => Ok(records),
            Err(fault) => Err(fault),
        }
    }

    /// Like `push`, but appends the records to a list. On error the list does not change.
    pub(crate) fn push_into(
        &mut self,
        piece: &[u8],
        records: &mut Records<A>,
    ) -> Result<(), FileFault>
        requires { HasRoom self.old piece.now }
        ensures appends { OnOk result (AppendsPart self.old self.new piece.now records.old records.new) }
        ensures unchanged { OnErr result (records.new ≡ records.old) }
        ensures memory { result ≡ Err FileFault.Memory → self.new ≡ self.old }
        ensures fault { IfErr result (λ e. e ≢ FileFault.Memory → FailsPart self.old piece.now self.new e) }
        ensures kept { (fault : Fault) → self.old.fault ≡ Some fault → result ≡ Err fault }
        ensures empty { self.old.fault ≡ None → piece.now ≡ [] → OnErr result ⊥ }
    {
        if let Some(fault) = self.fault {
            return Err(fault);
        }
        if piece.is_empty() {
            return Ok(());
        }
        match read_piece(
            self.alloc,
            &mut self.header,
            records,
            self.offset,
            &mut self.rest,
            piece,
        ) {
            Ok(count) => {
                self.offset += count as u64;
                Ok(())
            }
            Err(fault) => {
                if fault != FileFault::Memory {
                    *self = PartReader::stopped(self.alloc, fault);
                }
                Err(fault)
            }
        }
    }

    /// Returns the header, as a file without records, once the whole text of a file has arrived.
    pub(crate) fn end(self) -> Result<TwsFile<A>, FileFault>
        ensures ends { (records : List Plain) (bytes : List ℕ) → HasRead self records bytes → IsEnd records bytes result }
        ensures kept { (fault : Fault) → self.fault ≡ Some fault → result ≡ Err fault }
    {
        let PartReader {
            fault,
            header,
            offset,
            rest,
            ..
        } = self;
        if let Some(fault) = fault {
            return Err(fault);
        }
        match header {
            None => Err(FileFault::ShortHeader(rest.len() as u64)),
            Some(header) if rest.is_empty() => Ok(header),
            Some(_) => Err(FileFault::ShortRecord(offset)),
        }
    }

    /// Ends the reading. The bytes that arrived are the text of a file if this returns `Ok`, and its records are those
    /// that were handed out. Does not allocate.
    ///
    /// # Errors
    ///
    /// The fault of the bytes that arrived, or the one that was kept.
    pub fn finish(self) -> Result<(), FileFault>
        ensures { (records : List Plain) (bytes : List ℕ) → HasRead self records bytes → IsWhole records bytes result }
    {
        match self.end() {
            Ok(_) => Ok(()),
            Err(fault) => Err(fault),
        }
    }
}
