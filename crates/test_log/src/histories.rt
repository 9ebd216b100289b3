//! What a log adds to the history.

// The files of a history.
ghost use Rattle.std.specs.Prelude.{false};

use crate::site::{Input, Morning, log_steps};
use archive_history::HistoryFolder;
use archive_keepers::NoKeeper;
use archive_log::ServerLog;
use archive_table::Table;
use folders::{CallFault, Contents, Folder, MemoryFolder, RenameFault};
use log::Log;
use log::sink::{Discard, Memory};
use std::alloc::{Allocator, Global};
use std::io;
use std::io::{ErrorKind, Write};
use std::test::Fail;
use std::time::Clock;
use test_samples::{DATA_HUNDRED, DATA_NINETY, DATA_UNREADABLE, HUNDRED, NINETY, WRQ};

const FIRST: &str = "2026-11-27/20261127T091500.123Z-0.0.0.2-5000-lynx.tws";

const SECOND: &str = "2026-11-27/20261127T091500.123Z-0.0.0.2-5000-lynx-1.tws";

const THIRD: &str = "2026-11-27/20261127T091500.123Z-0.0.0.2-5000-lynx-2.tws";

// Named by `sha256sum` of the solution.
const MARKER: &str = "2026-11-27/.3c169ddd4c88b594dfc4a18353157224d5aeefa1ccc2322747735bd9ca3e1463";

const DRAFT: &str = "2026-11-27/20261127T091500.123Z-0.0.0.2-5000-lynx.tws.new";

// What it has: the copy's name.
const MARKED: &[u8] = b"20261127T091500.123Z-0.0.0.2-5000-lynx-1.tws";

// The solution between two pads.
const DATA_PADDED: &[u8; 40] =
    b"\0\x03\0\x01\x35\x33\x9B\x99\x01\0\0\0\0\0\0\0\x10\0\0\0\x01\0BDHP\0\0\0\0\0\0\x64\0\0\0\0\0\0\0";

// Lets a new server without a keeper make these steps, and logs them.
fn serve<C: Clock, L: Log, H: HistoryFolder>(
    alloc: Global,
    log: &mut ServerLog<C, L, H>,
    inputs: &[Input<'_>],
) -> Result<(), Fail> {
    let mut table = Table::new(alloc, 6969);
    log_steps(&mut table, &mut NoKeeper, log, inputs)
}

// The history in memory of a server that has made these steps.
fn history_of(alloc: Global, inputs: &[Input<'_>]) -> Result<Option<MemoryFolder>, Fail> {
    let mut log = ServerLog::new(
        alloc,
        Morning::new(),
        Discard,
        Some(MemoryFolder::new(alloc)),
    );
    serve(alloc, &mut log, inputs)?;
    Ok(log.into_history())
}

// Whether a name has this file.
fn is_file(history: &MemoryFolder, name: &str, wanted: &[u8]) -> bool {
    match history.file(name) {
        Some(file) => file == wanted,
        None => false,
    }
}

// Whether a history has these two files, a marker of the second, and nothing else.
fn has_two(history: &Option<MemoryFolder>, files: [&[u8]; 2]) -> bool {
    match history {
        Some(history) => {
            is_file(history, FIRST, files[0])
                && is_file(history, SECOND, files[1])
                && is_file(history, MARKER, MARKED)
                && history.file(THIRD).is_none()
                && history.file(DRAFT).is_none()
        }
        None => false,
    }
}

// After four puts, of a solution, of one that is slower and improves nothing, of bytes that are no file, and of the slower one
// again, there are two files.
#[test]
fn what_was_taken_and_is_readable(rt: HostRuntime) -> Result<(), Fail> {
    let inputs = [
        Input::Ask(4000, 0, WRQ),
        Input::Recv(4000, 0, DATA_NINETY),
        Input::Ask(4001, 0, WRQ),
        Input::Recv(4001, 0, DATA_HUNDRED),
        Input::Ask(4002, 0, WRQ),
        Input::Recv(4002, 0, DATA_UNREADABLE),
        Input::Ask(4003, 0, WRQ),
        Input::Recv(4003, 0, DATA_HUNDRED),
    ];
    let history = history_of(rt.alloc(), &inputs)?;
    assert!(rt; has_two(&history, [NINETY, HUNDRED]));
    Ok(())
}

// Of a file with pads the rest is there.
#[test]
fn without_pads(rt: HostRuntime) -> Result<(), Fail> {
    let inputs = [Input::Ask(4000, 0, WRQ), Input::Recv(4000, 0, DATA_PADDED)];
    let is_kept = match history_of(rt.alloc(), &inputs)? {
        Some(history) => is_file(&history, FIRST, HUNDRED),
        None => false,
    };
    assert!(rt; is_kept);
    Ok(())
}

// Lets a server with this history take the solution, and logs that here. Returns the history.
fn record<H: HistoryFolder>(alloc: Global, sink: &Memory, history: H) -> Result<Option<H>, Fail>
where
    H: Drop,
{
    let mut log = ServerLog::new(alloc, Morning::new(), sink, Some(history));
    let inputs = [Input::Ask(4000, 0, WRQ), Input::Recv(4000, 0, DATA_HUNDRED)];
    serve(alloc, &mut log, &inputs)?;
    Ok(log.into_history())
}

// Whether this is the last line.
fn ends_with(sink: Memory, wanted: &str) -> bool {
    match sink.into_lines().as_slice().last() {
        Some(line) => line.as_str() == wanted,
        None => false,
    }
}

// A put whose history fails from a call on: whether this is the last line, and the history.
fn recorded<H: HistoryFolder>(
    alloc: Global,
    history: H,
    wanted: &str,
) -> Result<(bool, Option<H>), Fail>
where
    H: Drop,
{
    let sink = Memory::new(alloc);
    let history = record(alloc, &sink, history)?;
    Ok((ends_with(sink, wanted), history))
}

// The same with a history in memory that lets so many calls pass, and whether the file is there.
fn recorded_until(alloc: Global, left: u64, wanted: &str) -> Result<(bool, bool), Fail> {
    let mut history = MemoryFolder::new(alloc);
    history.fail_after(left);
    let (is_last, history) = recorded(alloc, history, wanted)?;
    let is_there = match history {
        Some(history) => history.file(FIRST).is_some(),
        None => false,
    };
    Ok((is_last, is_there))
}

#[test]
fn each_call_fails(rt: HostRuntime) -> Result<(), Fail> {
    let rows = [
        "[ERROR tws] not recorded time=2026-11-27T09:15:00.123Z peer=0.0.0.2:5000 why=no folder for the day",
        "[ERROR tws] not recorded time=2026-11-27T09:15:00.123Z peer=0.0.0.2:5000 why=not looked up",
        "[ERROR tws] not recorded time=2026-11-27T09:15:00.123Z peer=0.0.0.2:5000 why=not looked up",
        "[ERROR tws] not recorded time=2026-11-27T09:15:00.123Z peer=0.0.0.2:5000 why=not created",
        "[ERROR tws] not recorded time=2026-11-27T09:15:00.123Z peer=0.0.0.2:5000 why=not created",
        "[ERROR tws] not recorded time=2026-11-27T09:15:00.123Z peer=0.0.0.2:5000 why=not synced",
        "[ERROR tws] not recorded time=2026-11-27T09:15:00.123Z peer=0.0.0.2:5000 why=not renamed",
        "[ERROR tws] not recorded time=2026-11-27T09:15:00.123Z peer=0.0.0.2:5000 why=folder not synced",
        "[INFO  tws] put taken time=2026-11-27T09:15:00.123Z peer=0.0.0.2:5000 bytes=28 ruleset=lynx fault=none better=1 millis=5",
    ];
    for (left, wanted) in rows.iter().enumerate() {
        let found = recorded_until(rt.alloc(), left as u64, *wanted)?;
        assert_eq!(rt; found, (true, left >= 7));
    }
    Ok(())
}

// A server takes the solution, a file of its history gets another text, and a server takes the solution again: whether there
// are two copies, and whether the log's last line says that one was there.
fn taken_again(alloc: Global, name: &str, text: &str) -> Result<(bool, bool), Fail> {
    let wanted = "[INFO  tws] already recorded time=2026-11-27T09:15:00.123Z peer=0.0.0.2:5000";
    let (_, history) = recorded(alloc, MemoryFolder::new(alloc), "")?;
    let Some(mut history) = history else {
        return Err(Fail::from("no history"));
    };
    let _ = history.write_short(name, text);
    let (is_last, history) = recorded(alloc, history, wanted)?;
    let are_two = match history {
        Some(history) => history.file(SECOND).is_some(),
        None => false,
    };
    Ok((are_two, is_last))
}

// The same bytes are there once, unless the marker or the copy has changed.
#[test]
fn a_marker_leads_to_the_copy(rt: HostRuntime) -> Result<(), Fail> {
    let rows = [
        (DRAFT, "", (false, true)),
        (
            MARKER,
            "20261127T091500.123Z-0.0.0.2-5000-lynx.tws",
            (false, true),
        ),
        (MARKER, "", (true, false)),
        (
            MARKER,
            "20261127T091500.123Z-0.0.0.2-5000-lynx-9.tws",
            (true, false),
        ),
        (FIRST, "another text", (true, false)),
    ];
    for (name, text, wanted) in rows {
        let found = taken_again(rt.alloc(), name, text)?;
        assert_eq!(rt; found, wanted);
    }
    Ok(())
}

// A file that takes no bytes.
#[derive(Drop)]
struct FullFile;

impl Write for FullFile {
    fn write(&mut self, _buf: &[u8]) -> io::Result<usize> {
        Err(io::Error::from(ErrorKind::StorageFull))
    }

    fn flush(&mut self) -> io::Result<()> {
        Ok(())
    }
}

// A folder without a model, each file of which takes no bytes: whether its day was opened, and how often the draft was removed.
#[derive(Drop)]
struct FullHistory {
    is_open: bool,
    cleared: u64,
    faults: u64,
}

impl Folder for FullHistory {
    type File = FullFile;

    ghost use Rattle.folders.specs.Folder.{no_model};

    ghost has_model = { false };

    ghost model = { no_model };

    ghost undoes_renames = { false };

    ghost faults = { λ folder. folder.faults };

    fn contains(&mut self, _name: &str) -> Result<bool, CallFault> {
        Ok(false)
    }

    fn remove(&mut self, name: &str) -> Result<(), CallFault> {
        if name == DRAFT {
            self.cleared = self.cleared.saturating_add(1);
        }
        Ok(())
    }

    fn create_new(&mut self, _name: &str, _target: &str) -> Result<FullFile, CallFault> {
        Ok(FullFile)
    }

    fn abandon(&mut self, _file: FullFile) {
        self.faults = self.faults.saturating_add(1);
    }

    fn sync(&mut self, _name: &str, _file: FullFile) -> Result<(), CallFault> {
        Ok(())
    }

    fn rename(&mut self, _from: &str, _to: &str) -> Result<(), RenameFault> {
        Ok(())
    }

    fn sync_folder(&mut self) -> Result<(), CallFault> {
        Ok(())
    }

    fn read<A: Allocator>(
        &mut self,
        _alloc: A,
        _name: &str,
    ) -> Result<Option<Vec<u8, A>>, CallFault> {
        Ok(None)
    }

    fn last_error(&self) -> Option<io::Error> {
        None
    }
}

impl HistoryFolder for FullHistory {
    ghost is_open = { λ _ _. Unit {0} };

    fn open_day(&mut self, day: &str) -> Result<(), CallFault> {
        self.is_open = day == "2026-11-27";
        Ok(())
    }

    fn has_text<C: Contents>(&mut self, _name: &str, _text: &C) -> bool {
        false
    }

    fn write_short(&mut self, _name: &str, _text: &str) -> Result<(), CallFault> {
        Ok(())
    }
}

// Whether this is the last line of a put to such a folder, whether its day was opened, and how often the draft was removed.
fn recorded_in_full(alloc: Global, wanted: &str) -> Result<(bool, bool, u64), Fail> {
    let full = FullHistory {
        is_open: false,
        cleared: 0,
        faults: 0,
    };
    let (is_last, history) = recorded(alloc, full, wanted)?;
    match history {
        Some(history) => Ok((is_last, history.is_open, history.cleared)),
        None => Ok((is_last, false, 0)),
    }
}

#[test]
fn a_write_fails(rt: HostRuntime) -> Result<(), Fail> {
    let wanted =
        "[ERROR tws] not recorded time=2026-11-27T09:15:00.123Z peer=0.0.0.2:5000 why=not written";
    assert_eq!(rt; recorded_in_full(rt.alloc(), wanted)?, (true, true, 2));
    Ok(())
}
