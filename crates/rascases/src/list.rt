//! Lists of cases, which are read line by line; each case is carried out when the lines behind it begin.

use crate::case::{End, Setting};
use crate::content::{Content, Named};
use crate::line::{Form, Line, Piece};
use crate::report::{Counts, Halt, put_difference, put_unread};
use ras_outside::Sink;
use std::alloc::{AllocError, Global};
use std::mem;
use std::thread::Threads;

/// What lines of content are added to.
#[derive(Clone, Copy)]
enum Part<'a> {
    Nothing,
    Text(&'a str),
    File(&'a str),
    Output { status: u8, is_compared: bool },
}

/// A list as far as it was read.
#[derive(Drop)]
struct Reader<'a> {
    texts: Vec<Named<'a>>,
    setting: Setting<'a>,
    part: Part<'a>,
    content: Content,
}

/// A case that ended otherwise than wanted.
#[derive(Drop)]
struct Difference {
    wanted: End,
    came: End,
}

/// What comes of a part that is closed.
#[derive(Drop)]
enum Closed {
    Nothing,
    Passed,
    Failed(Difference),
}

impl<'a> Reader<'a> {
    fn new(alloc: Global) -> Reader<'a> {
        Reader {
            texts: Vec::new(alloc),
            setting: Setting::new(alloc),
            part: Part::Nothing,
            content: Content::new(alloc),
        }
    }

    /// Ends the part that lines of content were added to, and begins another.
    fn begin<R: Threads + Sync>(
        &mut self,
        rt: &R,
        alloc: Global,
        part: Part<'a>,
    ) -> Result<Closed, AllocError> {
        let content = mem::replace(&mut self.content, Content::new(alloc));
        let ended = mem::replace(&mut self.part, part);
        match ended {
            Part::Nothing => Ok(Closed::Nothing),
            Part::Text(name) => {
                self.texts.push(Named { name, content })?;
                Ok(Closed::Nothing)
            }
            Part::File(name) => {
                self.setting.hold(name, content)?;
                Ok(Closed::Nothing)
            }
            Part::Output {
                status,
                is_compared,
            } => {
                let output = if is_compared {
                    Some(content.with_place(alloc, self.setting.place())?)
                } else {
                    None
                };
                self.carry_out_case(rt, alloc, End { status, output })
            }
        }
    }

    fn carry_out_case<R: Threads + Sync>(
        &mut self,
        rt: &R,
        alloc: Global,
        wanted: End,
    ) -> Result<Closed, AllocError> {
        let length = match &wanted.output {
            Some(output) => output.len(),
            None => 0,
        };
        let came = self.setting.end(rt, alloc, length)?;
        self.setting.loads.clear();
        self.setting.puts.clear();
        if came.is_as(&wanted) {
            return Ok(Closed::Passed);
        }
        Ok(Closed::Failed(Difference { wanted, came }))
    }

    fn set_words(&mut self, words: &'a str) -> Result<(), AllocError> {
        self.setting.words.clear();
        self.setting.files.clear();
        for word in words.split_whitespace() {
            self.setting.words.push(word)?;
        }
        Ok(())
    }

    /// Adds a piece to the open part, and tells whether there is one and the piece could be read.
    fn add(&mut self, piece: Piece<'a>) -> Result<bool, AllocError> {
        match self.part {
            Part::Nothing => return Ok(false),
            Part::Text(_) | Part::File(_) => {}
            Part::Output { status, .. } => {
                self.part = Part::Output {
                    status,
                    is_compared: true,
                }
            }
        }
        self.content.add(piece, &self.texts)
    }

    /// Begins the output that is wanted, with its one line where there is one.
    fn want<R: Threads + Sync>(
        &mut self,
        rt: &R,
        alloc: Global,
        status: u8,
        text: &'a str,
    ) -> Result<Closed, AllocError> {
        let is_compared = !text.is_empty();
        let closed = self.begin(
            rt,
            alloc,
            Part::Output {
                status,
                is_compared,
            },
        )?;
        if is_compared {
            let form = Form::Line;
            let times = None;
            self.content.add(Piece { times, form, text }, &self.texts)?;
        }
        Ok(closed)
    }

    /// Reads one line, and tells what came of the part before it, or nothing where it is no line of a list.
    fn read<R: Threads + Sync>(
        &mut self,
        rt: &R,
        alloc: Global,
        line: Line<'a>,
    ) -> Result<Option<Closed>, AllocError> {
        match line {
            Line::Nothing => Ok(Some(Closed::Nothing)),
            Line::Content(piece) => {
                let is_added = self.add(piece)?;
                Ok(is_added.then_some(Closed::Nothing))
            }
            Line::Text(name) => Ok(Some(self.begin(rt, alloc, Part::Text(name))?)),
            Line::File(name) => Ok(Some(self.begin(rt, alloc, Part::File(name))?)),
            Line::Want { status, text } => Ok(Some(self.want(rt, alloc, status, text)?)),
            Line::Other => Ok(None),
            Line::Words(_) | Line::Word(_) | Line::Load(_) | Line::Put { .. } => {
                let closed = self.begin(rt, alloc, Part::Nothing)?;
                self.set(line)?;
                Ok(Some(closed))
            }
        }
    }

    /// Sets words, or a fault of the outside.
    fn set(&mut self, line: Line<'a>) -> Result<(), AllocError> {
        match line {
            Line::Words(words) => self.set_words(words)?,
            Line::Word(word) => self.setting.words.push(word)?,
            Line::Load(number) => self.setting.loads.push(number)?,
            Line::Put { number, taken } => self.setting.puts.push((number, taken))?,
            _ => {}
        }
        Ok(())
    }
}

/// Counts what came of a part, and writes where a case ended otherwise than wanted.
fn tell<K: Sink>(
    alloc: Global,
    list: &str,
    number: u32,
    closed: Option<Closed>,
    out: &mut K,
    counts: &mut Counts,
) -> Result<(), Halt> {
    match closed {
        Some(Closed::Nothing) => Ok(()),
        Some(Closed::Passed) => {
            counts.pass();
            Ok(())
        }
        Some(Closed::Failed(difference)) => {
            counts.fail();
            put_difference(
                alloc,
                list,
                number,
                &difference.wanted,
                &difference.came,
                out,
            )
        }
        None => {
            counts.fail();
            put_unread(alloc, list, number, out)
        }
    }
}

/// Carries out the cases of a list, and counts them.
pub fn carry_out<R: Threads + Sync, K: Sink>(
    rt: &R,
    alloc: Global,
    list: &'static str,
    bytes: &[u8],
    out: &mut K,
    counts: &mut Counts,
) -> Result<(), Halt> {
    let Ok(text) = str::from_utf8(bytes) else {
        return Err(Halt::Unread { list });
    };
    let mut reader = Reader::new(alloc);
    let mut number = 0u32;
    for line in text.lines() {
        number = number.saturating_add(1);
        let closed = reader.read(rt, alloc, Line::read(line))?;
        tell(alloc, list, number, closed, out, counts)?;
    }
    let closed = reader.begin(rt, alloc, Part::Nothing)?;
    tell(alloc, list, number, Some(closed), out, counts)
}
