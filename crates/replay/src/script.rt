use crate::command::Command;
use crate::parse::parse;
use anyhow::{Context, Error, Result};
use calls::Turn;
use std::alloc::{AllocError, Global};
use std::fs;
use std::rt::Files;

// A call of a script.
#[derive(Drop)]
pub(crate) struct Entry<'a> {
    // The number of its line.
    pub(crate) line: usize,
    pub(crate) command: Command<'a>,
    // The bytes of the file that it loads; none where it loads no file.
    pub(crate) table: Vec<u8>,
    // Where its buffer begins: the buffers of all calls lie one behind the other.
    pub(crate) start: usize,
}

impl Entry<'_> {
    // The call, not made yet.
    fn turn(&self) -> Turn<'_> {
        Turn::new(self.command.call(self.table.as_slice(), self.start))
    }

    // Where its buffer ends.
    fn end(&self) -> usize {
        self.start.saturating_add(self.command.room())
    }
}

// The calls of a script, up to the first line that ends the run.
#[derive(Drop)]
pub(crate) struct Script<'a> {
    pub(crate) entries: Vec<Entry<'a>>,
    // How many bytes their buffers have together.
    pub(crate) room: usize,
    // Which line ends the run, and why.
    pub(crate) ending: Option<Error>,
}

// The bytes of the file that a call loads.
fn table<R: Files + AllocGlobal>(rt: &R, command: &Command<'_>) -> Result<Vec<u8>> {
    match command {
        Command::Load(file) => {
            fs::read(rt, file).context(format_args!("`{file}` cannot be read"))
        }
        _ => Ok(Vec::new(rt.alloc())),
    }
}

// The call of a line, with the table that it loads, and a buffer that begins at this place.
fn understood<'a, R: Files + AllocGlobal>(
    rt: &R,
    line: usize,
    text: &'a [u8],
    start: usize,
) -> Result<Option<Entry<'a>>> {
    let command = match parse(text) {
        Ok(Some(command)) => command,
        Ok(None) => return Ok(None),
        Err(why) => return Err(why),
    };
    let table = table(rt, &command)?;
    Ok(Some(Entry {
        line,
        command,
        table,
        start,
    }))
}

impl<'a> Script<'a> {
    // Reads a script, and the files that it loads.
    pub(crate) fn read<R: Files + AllocGlobal>(rt: &R, text: &'a [u8]) -> Result<Self> {
        let mut entries = Vec::new(rt.alloc());
        let mut line = 0usize;
        let mut room = 0usize;
        let mut ending = None;
        for words in text.split(|byte| *byte == b'\n') {
            line = line.saturating_add(1);
            match understood(rt, line, words, room) {
                Ok(Some(entry)) => {
                    room = entry.end();
                    entries.push(entry)?;
                }
                Ok(None) => {}
                Err(why) => {
                    ending = Some(why.context(format_args!("line {line}")));
                    break;
                }
            }
        }
        Ok(Script {
            entries,
            room,
            ending,
        })
    }
}

// The calls, none made yet.
pub(crate) fn turns<'a>(
    heap: Global,
    entries: &'a [Entry<'_>],
) -> Result<Vec<Turn<'a>>, AllocError> {
    entries.iter().map(|entry| entry.turn()).collect(heap)
}
