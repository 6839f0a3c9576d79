//! Texts that lines of content add up to.

use crate::line::{Form, Piece};
use std::alloc::{AllocError, Global};

/// A text, and the place that `@` marks in it.
#[derive(Drop)]
pub struct Content {
    pub bytes: Vec<u8>,
    pub mark: Option<usize>,
}

/// A content with its name.
#[derive(Drop)]
pub struct Named<'a> {
    pub name: &'a str,
    pub content: Content,
}

/// The content with this name; of two the later one.
pub fn find<'a>(all: &'a [Named<'_>], name: &str) -> Option<&'a Content> {
    for named in all.iter().rev() {
        if named.name == name {
            return Some(&named.content);
        }
    }
    None
}

impl Content {
    pub fn new(alloc: Global) -> Content {
        Content {
            bytes: Vec::new(alloc),
            mark: None,
        }
    }

    /// Adds a piece as often as it says, and tells whether it could be read. In a piece that is counted, `#` stands for two
    /// letters that count, from `aa`; in a text, `@` marks a place.
    pub fn add(&mut self, piece: Piece<'_>, texts: &[Named<'_>]) -> Result<bool, AllocError> {
        let Some(times) = piece.times else {
            return self.add_once(piece, None, texts);
        };
        for number in 0..times {
            if !self.add_once(piece, Some(number), texts)? {
                return Ok(false);
            }
        }
        Ok(true)
    }

    fn add_once(
        &mut self,
        piece: Piece<'_>,
        number: Option<u32>,
        texts: &[Named<'_>],
    ) -> Result<bool, AllocError> {
        match piece.form {
            Form::Line => {
                self.add_text(piece.text, number, false)?;
                self.bytes.push(b'\n')?;
                Ok(true)
            }
            Form::Part => {
                self.add_text(piece.text, number, false)?;
                Ok(true)
            }
            Form::Lines => {
                self.add_text(piece.text, number, true)?;
                Ok(true)
            }
            Form::Bytes => self.add_digits(piece.text),
            Form::Named => self.add_named(piece.text, texts),
        }
    }

    fn add_text(
        &mut self,
        text: &str,
        number: Option<u32>,
        has_line_ends: bool,
    ) -> Result<(), AllocError> {
        for byte in text.bytes() {
            match (byte, number) {
                (b'@', _) => self.mark = Some(self.bytes.len()),
                (b'#', Some(number)) => self.add_letters(number)?,
                (b';', _) if has_line_ends => self.bytes.push(b'\n')?,
                _ => self.bytes.push(byte)?,
            }
        }
        Ok(())
    }

    fn add_letters(&mut self, number: u32) -> Result<(), AllocError> {
        self.bytes.push(b'a' + (number / 26 % 26) as u8)?;
        self.bytes.push(b'a' + (number % 26) as u8)?;
        Ok(())
    }

    fn add_digits(&mut self, text: &str) -> Result<bool, AllocError> {
        for word in text.split_whitespace() {
            let Ok(byte) = u8::from_str_radix(word, 16) else {
                return Ok(false);
            };
            self.bytes.push(byte)?;
        }
        Ok(true)
    }

    fn add_named(&mut self, name: &str, texts: &[Named<'_>]) -> Result<bool, AllocError> {
        let Some(content) = find(texts, name) else {
            return Ok(false);
        };
        if let Some(mark) = content.mark {
            self.mark = Some(self.bytes.len().saturating_add(mark));
        }
        self.bytes.extend_from_slice(&content.bytes)?;
        Ok(true)
    }

    /// The bytes with the digits of a place where this content is marked.
    pub fn with_place(&self, alloc: Global, place: usize) -> Result<Vec<u8>, AllocError> {
        let mark = self.mark.unwrap_or(0).min(self.bytes.len());
        let (before, behind) = self.bytes.split_at(mark);
        let mut bytes = Vec::from_slice(alloc, before)?;
        if self.mark.is_some() {
            let digits = format!(in alloc; "{place}")?;
            bytes.extend_from_slice(digits.as_bytes())?;
        }
        bytes.extend_from_slice(behind)?;
        Ok(bytes)
    }
}
