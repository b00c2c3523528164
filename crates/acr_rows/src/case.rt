//! A case as it stands in a file.

use anyhow::{Context, Result, bail};
use std::alloc::Global;

/// What fails in turn as a case is served again.
#[derive(Clone, Copy, Debug, PartialEq, Eq)]
pub(crate) enum InTurn {
    Nothing,
    Take,
    Give,
    Room,
}

/// A call of the program, and what it must answer.
#[derive(Drop)]
pub(crate) struct Case {
    pub name: String,
    pub words: Vec<String>,
    pub input: Vec<u8>,
    /// The read that fails.
    pub failing_take: Option<u64>,
    /// The write that fails.
    pub failing_give: Option<u64>,
    /// How many bytes the sink has room for.
    pub room: usize,
    pub in_turn: InTurn,
    /// The status that is due.
    pub status: u8,
    /// The text that is due.
    pub output: Vec<u8>,
    /// How many reads are due, where that is told.
    pub takes: Option<u64>,
}

// Where in a case a line stands.
#[derive(Clone, Copy, Debug, PartialEq, Eq)]
enum Part {
    Head,
    Input,
    Output,
}

/// Room for every text that a case may be due.
const AMPLE_ROOM: usize = 65_536;

impl Case {
    /// The case of these lines, of which the first is its name.
    pub(crate) fn read(alloc: Global, lines: &str) -> Result<Case> {
        let (name, rest) = lines.split_once('\n').context("a case has no lines")?;
        let mut case = Case::start(alloc, name)?;
        let mut part = Part::Head;
        for line in rest.lines() {
            part = case.put_line(alloc, part, line).with_context(|| name)?;
        }
        Ok(case)
    }

    // A case with nothing told but its name.
    fn start(alloc: Global, name: &str) -> Result<Case> {
        let mut words = Vec::new(alloc);
        words.push("drill".to_string(alloc)?)?;
        Ok(Case {
            name: name.to_string(alloc)?,
            words,
            input: Vec::new(alloc),
            failing_take: None,
            failing_give: None,
            room: AMPLE_ROOM,
            in_turn: InTurn::Nothing,
            status: 0,
            output: Vec::new(alloc),
            takes: None,
        })
    }

    // Takes in a line, and tells where the next one stands.
    fn put_line(&mut self, alloc: Global, part: Part, line: &str) -> Result<Part> {
        if part == Part::Input {
            if line == "output:" {
                return Ok(Part::Output);
            }
            put_text(alloc, &mut self.input, line)?;
            return Ok(Part::Input);
        }
        if line.is_empty() || line.starts_with('#') {
            return Ok(part);
        }
        if part == Part::Output {
            put_text(alloc, &mut self.output, line)?;
            return Ok(Part::Output);
        }
        if line == "input:" {
            return Ok(Part::Input);
        }
        self.put_head(alloc, line)?;
        Ok(Part::Head)
    }

    // Takes in a line of the head.
    fn put_head(&mut self, alloc: Global, line: &str) -> Result<()> {
        let (key, value) = line.split_once(':').context("a head's line has no colon")?;
        let value = value.trim();
        match key {
            "words" => self.words = words_of(alloc, value)?,
            "status" => self.status = value.parse()?,
            "takes" => self.takes = Some(value.parse()?),
            "room" => self.room = value.parse()?,
            "failing take" => self.failing_take = Some(value.parse()?),
            "failing give" => self.failing_give = Some(value.parse()?),
            "in turn" => self.in_turn = in_turn(value)?,
            _ => bail!("unknown line in a head"),
        }
        Ok(())
    }
}

fn words_of(alloc: Global, text: &str) -> Result<Vec<String>> {
    let mut words = Vec::new(alloc);
    for word in text.split_whitespace() {
        words.push(word.to_string(alloc)?)?;
    }
    Ok(words)
}

fn in_turn(word: &str) -> Result<InTurn> {
    Ok(match word {
        "take" => InTurn::Take,
        "give" => InTurn::Give,
        "room" => InTurn::Room,
        _ => bail!("nothing that can fail in turn"),
    })
}

// Puts the bytes of a line of an input or an output at the end.
fn put_text(alloc: Global, out: &mut Vec<u8>, line: &str) -> Result<()> {
    if let Some(rest) = line.strip_prefix("\\repeat ") {
        return repeat(alloc, out, rest);
    }
    if let Some(size) = line.strip_prefix("\\pad ") {
        return pad(out, size.parse()?);
    }
    match line.strip_suffix('\\') {
        Some(text) => unescape(alloc, out, text, 0)?,
        None => {
            unescape(alloc, out, line, 0)?;
            out.push(b'\n')?;
        }
    }
    Ok(())
}

// Puts a text as often as the number before it tells.
fn repeat(alloc: Global, out: &mut Vec<u8>, rest: &str) -> Result<()> {
    let (count, quoted) = rest.split_once(' ').context("no text to repeat")?;
    let count: u64 = count.parse()?;
    let text = quoted
        .strip_prefix('"')
        .context("no quote before a text")?
        .strip_suffix('"')
        .context("no quote behind a text")?;
    for turn in 0..count {
        unescape(alloc, out, text, turn + 1)?;
    }
    Ok(())
}

// Fills up to `size` bytes with a comment.
fn pad(out: &mut Vec<u8>, size: usize) -> Result<()> {
    for _ in out.len()..size {
        out.push(b'#')?;
    }
    Ok(())
}

// Puts a text with its escapes taken for what they stand for, in the turn of this number.
fn unescape(alloc: Global, out: &mut Vec<u8>, text: &str, turn: u64) -> Result<()> {
    let mut first = true;
    for piece in text.split('\\') {
        if first {
            out.extend_from_slice(piece.as_bytes())?;
        } else {
            put_escape(alloc, out, piece, turn)?;
        }
        first = false;
    }
    Ok(())
}

// Puts what stands behind a `\`.
fn put_escape(alloc: Global, out: &mut Vec<u8>, piece: &str, turn: u64) -> Result<()> {
    if let Some(rest) = piece.strip_prefix('r') {
        out.push(b'\r')?;
        out.extend_from_slice(rest.as_bytes())?;
    } else if let Some(rest) = piece.strip_prefix('t') {
        out.push(b'\t')?;
        out.extend_from_slice(rest.as_bytes())?;
    } else if let Some(rest) = piece.strip_prefix('#') {
        out.extend_from_slice(turn.to_string(alloc)?.as_bytes())?;
        out.extend_from_slice(rest.as_bytes())?;
    } else {
        let digits = piece.strip_prefix('x').context("unknown escape")?;
        put_hex(out, digits)?;
    }
    Ok(())
}

// Puts the byte of two hexadecimal digits, and what stands behind them.
fn put_hex(out: &mut Vec<u8>, text: &str) -> Result<()> {
    let (digits, rest) = text.split_at_checked(2).context("a byte has two digits")?;
    out.push(u8::from_str_radix(digits, 16)?)?;
    out.extend_from_slice(rest.as_bytes())?;
    Ok(())
}
