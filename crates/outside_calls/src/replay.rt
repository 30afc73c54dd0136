//! Follows a list, line by line, over a store in memory.

use crate::entries::{Entry, push_part, read_entry};
use crate::told::{Mark, file_told, line_told, mark_of};
use anyhow::{Result, anyhow, bail};
use cairo_commands::{Status, perform};
use file_port::{MemorySink, MemoryStore, Store};
use std::alloc::{AllocError, Global};

/// How far a list was followed.
#[derive(Drop)]
pub struct Replay {
    alloc: Global,
    store: MemoryStore,
    /// The file whose parts are read, with its bytes so far.
    file: Option<(String, Vec<u8>)>,
}

impl Replay {
    /// A list that is to be followed, over a store with no files.
    pub fn new(alloc: Global) -> Replay {
        Replay {
            alloc,
            store: no_files(alloc),
            file: None,
        }
    }

    /// Does what a line says, and answers what there is to tell.
    pub fn follow(&mut self, line: &str) -> Result<Option<String>> {
        match read_entry(line)? {
            Entry::Blank => Ok(None),
            Entry::Part(part) => match &mut self.file {
                Some((_, bytes)) => {
                    push_part(bytes, part)?;
                    Ok(None)
                }
                None => Err(anyhow!("a part of no file")),
            },
            other => {
                self.put_file()?;
                self.act(other)
            }
        }
    }

    /// Puts the file whose parts were read into the store.
    fn put_file(&mut self) -> Result<()> {
        if let Some((name, bytes)) = self.file.take() {
            self.store
                .replace(self.alloc, name.as_str(), &bytes)
                .map_err(|_| anyhow!("no memory for a file"))?;
        }
        Ok(())
    }

    fn act(&mut self, entry: Entry) -> Result<Option<String>> {
        match entry {
            Entry::Blank | Entry::Part(_) => {}
            Entry::Store => self.store = no_files(self.alloc),
            Entry::File(name) => {
                let name = String::from_str(self.alloc, name)?;
                self.file = Some((name, Vec::new(self.alloc)));
            }
            Entry::Need(words) => self.need(words)?,
            Entry::Call(name, words) => return Ok(Some(self.call(name, words)?)),
        }
        Ok(None)
    }

    /// Makes a call that has to be done.
    fn need(&mut self, words: &str) -> Result<()> {
        let words = words_of(self.alloc, words)?;
        let mut sink = MemorySink::new(self.alloc, Vec::new(self.alloc));
        match perform(self.alloc, &words, &mut self.store, &mut sink) {
            Status::Done => Ok(()),
            other => bail!("a call ended with status {}", other.number()),
        }
    }

    /// Makes a call, and tells of it and of each file that it made or changed.
    fn call(&mut self, name: &str, words: &str) -> Result<String> {
        let words = words_of(self.alloc, words)?;
        let before = self.marks(&words)?;
        let mut sink = MemorySink::new(self.alloc, Vec::new(self.alloc));
        let status = perform(self.alloc, &words, &mut self.store, &mut sink);
        let line = line_told(sink.bytes());
        let mut told = format!(in self.alloc; "{name}: {} {line}", status.number())?;
        for (word, mark) in words.iter().zip(&before) {
            let file = self.store.file(word.as_str());
            if mark_of(file) != *mark {
                told.push_str(file_told(self.alloc, word.as_str(), file)?.as_str())?;
            }
        }
        Ok(told)
    }

    /// The marks of the files of these names.
    fn marks(&self, names: &[String]) -> Result<Vec<Mark>, AllocError> {
        let mut marks = Vec::new(self.alloc);
        for name in names {
            marks.push(mark_of(self.store.file(name.as_str())))?;
        }
        Ok(marks)
    }
}

fn no_files(alloc: Global) -> MemoryStore {
    MemoryStore::new(Vec::new(alloc), Vec::new(alloc))
}

/// The words of a text, of which any number of blanks may stand between two.
fn words_of(alloc: Global, text: &str) -> Result<Vec<String>, AllocError> {
    let mut words = Vec::new(alloc);
    for word in text.split_whitespace() {
        words.push(String::from_str(alloc, word)?)?;
    }
    Ok(words)
}
