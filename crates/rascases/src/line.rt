//! The lines of a list of cases.

/// How the text of a line of content is added.
#[derive(Clone, Copy, PartialEq, Eq)]
pub enum Form {
    /// The text and a line end.
    Line,
    /// The text alone.
    Part,
    /// The text with a line end for each `;`.
    Lines,
    /// Bytes in hexadecimal digits.
    Bytes,
    /// The text that was named so before.
    Named,
}

impl Form {
    const ALL: [Form; 5] = [
        Form::Line,
        Form::Part,
        Form::Lines,
        Form::Bytes,
        Form::Named,
    ];

    /// The sign behind which the text of a line of this form stands.
    fn sign(self) -> char {
        match self {
            Form::Line => '|',
            Form::Part => '>',
            Form::Lines => ';',
            Form::Bytes => '%',
            Form::Named => '<',
        }
    }
}

/// A line of content: its text is added as often as the number before its sign says.
#[derive(Clone, Copy)]
pub struct Piece<'a> {
    pub times: Option<u32>,
    pub form: Form,
    pub text: &'a str,
}

/// A line of a list of cases.
#[derive(Clone, Copy)]
pub enum Line<'a> {
    /// An empty line, or a remark behind `#`.
    Nothing,
    /// The words of the next cases; no files are held from here on.
    Words(&'a str),
    /// One word more, which may be empty or have blanks.
    Word(&'a str),
    /// The name of a text for later lines; its content follows.
    Text(&'a str),
    /// The name of a file of this case and the next ones; its content follows.
    File(&'a str),
    /// The number of a load that fails in this case, from 1.
    Load(u64),
    /// The number of a put that fails in this case, from 1, and the bytes that it takes.
    Put { number: u64, taken: u64 },
    /// The status that is wanted, and a line that is wanted or nothing; more of the output may follow.
    Want { status: u8, text: &'a str },
    /// A piece of the text, the file or the output that was named before.
    Content(Piece<'a>),
    /// Anything else.
    Other,
}

impl<'a> Line<'a> {
    /// The line that is spelled so.
    pub fn read(line: &'a str) -> Line<'a> {
        if line.is_empty() || line.starts_with('#') {
            return Line::Nothing;
        }
        match read_piece(line) {
            Some(piece) => Line::Content(piece),
            None => read_named(line),
        }
    }
}

/// The piece that a line of content adds.
fn read_piece(line: &str) -> Option<Piece<'_>> {
    for form in Form::ALL {
        if let Some(piece) = read_form(line, form) {
            return Some(piece);
        }
    }
    None
}

/// The piece of this form, behind nothing or a number.
fn read_form(line: &str, form: Form) -> Option<Piece<'_>> {
    let (front, text) = line.split_once(form.sign())?;
    if front.is_empty() {
        let times = None;
        return Some(Piece { times, form, text });
    }
    let times = Some(front.parse().ok()?);
    Some(Piece { times, form, text })
}

/// A line that begins with a word which says what stands behind it.
fn read_named(line: &str) -> Line<'_> {
    let (word, rest) = line.split_once(' ').unwrap_or((line, ""));
    match word {
        "words" => Line::Words(rest),
        "word" => Line::Word(rest),
        "text" => Line::Text(rest),
        "file" => Line::File(rest),
        "load" => read_load(rest),
        "put" => read_put(rest),
        "want" => read_want(rest),
        _ => Line::Other,
    }
}

/// `N fails`.
fn read_load(rest: &str) -> Line<'_> {
    let Some((number, "fails")) = rest.split_once(' ') else {
        return Line::Other;
    };
    match number.parse() {
        Ok(number) => Line::Load(number),
        Err(_) => Line::Other,
    }
}

/// `N takes M`.
fn read_put(rest: &str) -> Line<'_> {
    let Some((number, taken)) = rest.split_once(" takes ") else {
        return Line::Other;
    };
    match (number.parse(), taken.parse()) {
        (Ok(number), Ok(taken)) => Line::Put { number, taken },
        _ => Line::Other,
    }
}

/// `STATUS` or `STATUS LINE`.
fn read_want(rest: &str) -> Line<'_> {
    let (status, text) = rest.split_once(' ').unwrap_or((rest, ""));
    match status.parse() {
        Ok(status) => Line::Want { status, text },
        Err(_) => Line::Other,
    }
}
