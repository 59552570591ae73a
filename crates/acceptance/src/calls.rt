// The top call over files and a sink in memory.
ghost use Rattle.std.specs.Prelude.{◌≡◌, ◌∷◌, [], IfOk, codes, map, string_bytes, vec_len};

use invar_app::{Status, invar};
use io_edge::{MemFiles, MemSink};
use journal::Meter;
use std::alloc::{AllocError, Global};
use worked_rows::bytes_of;

/// What calls are given besides their words: the bytes of the files LOOP and CERT, and the faults of the outside.
#[derive(Drop)]
pub(crate) struct Given {
    pub(crate) lp: Vec<u8>,
    cert: Vec<u8>,
    faults: Faults,
}

impl Given {
    /// Empty files, and no faults.
    pub(crate) fn new(alloc: Global) -> Given {
        Given {
            lp: Vec::new(alloc),
            cert: Vec::new(alloc),
            faults: Faults::by_name("none"),
        }
    }

    /// A loop of this text, an empty certificate, and no faults.
    pub(crate) fn of_loop(alloc: Global, text: &str) -> Result<Given, AllocError> {
        let mut given = Given::new(alloc);
        given.lp = text.as_bytes().to_vec(alloc)?;
        Ok(given)
    }

    /// Takes what a line gives, and says whether it gives something.
    pub(crate) fn take(&mut self, alloc: Global, columns: &[&str]) -> Result<bool, AllocError> {
        match columns {
            ["LOOP", bytes @ ..] => self.lp = content_of(alloc, bytes)?,
            ["CERT", bytes @ ..] => self.cert = content_of(alloc, bytes)?,
            ["FAULTS", name] => self.faults = Faults::by_name(name),
            ["FAULTS", "byte", number] => self.faults = Faults::at_byte(number),
            _ => return Ok(false),
        }
        Ok(true)
    }
}

// The bytes of a file: a text, or so many bytes: a text with blanks behind it, or blanks alone.
fn content_of(alloc: Global, columns: &[&str]) -> Result<Vec<u8>, AllocError> {
    match columns {
        [text] => bytes_of(alloc, text),
        ["blanks", length] => with_blanks(Vec::new(alloc), length),
        ["blanks", length, text] => with_blanks(bytes_of(alloc, text)?, length),
        _ => Ok(Vec::new(alloc)),
    }
}

// The bytes with blanks behind them, up to this length.
fn with_blanks(mut bytes: Vec<u8>, length: &str) -> Result<Vec<u8>, AllocError> {
    bytes.resize(length.parse().unwrap_or(0), b' ')?;
    Ok(bytes)
}

/// The number of the read and of the write that fails, and the most bytes that a write takes.
#[derive(Clone, Copy)]
struct Faults {
    read: Option<u64>,
    write: Option<u64>,
    most: usize,
}

impl Faults {
    fn by_name(name: &str) -> Faults {
        match name {
            "read 1 fails" => Faults::new(Some(1), None, 1000),
            "read 2 fails" => Faults::new(Some(2), None, 1000),
            "write 2 fails" => Faults::new(None, Some(2), 3),
            _ => Faults::new(None, None, 1000),
        }
    }

    // Writes take one byte each, and the one with this number fails.
    fn at_byte(number: &str) -> Faults {
        Faults::new(None, number.parse().ok(), 1)
    }

    fn new(read: Option<u64>, write: Option<u64>, most: usize) -> Faults {
        Faults { read, write, most }
    }
}

// A list of the number, where there is one.
fn list_of(alloc: Global, number: Option<u64>) -> Result<Vec<u64>, AllocError> {
    match number {
        Some(number) => Ok(vec![in alloc; number]?),
        None => Ok(Vec::new(alloc)),
    }
}

fn text(alloc: Global, bytes: &str) -> Result<String, AllocError>
    ensures { IfOk result (λ s. string_bytes s ≡ bytes.now) }
{
    String::from_str(alloc, bytes)
}

fn names(alloc: Global) -> Result<Vec<String>, AllocError>
    ensures two { IfOk result (λ names. vec_len names ≡ 2) }
    ensures names { IfOk result (λ names.
        map string_bytes names.items ≡ codes "LOOP" ∷ codes "CERT" ∷ []) }
{
    let mut names = Vec::new(alloc);
    names.push(text(alloc, "LOOP")?)?;
    names.push(text(alloc, "CERT")?)?;
    Ok(names)
}

fn contents(alloc: Global, given: &Given) -> Result<Vec<Vec<u8>>, AllocError>
    ensures { IfOk result (λ contents. vec_len contents ≡ 2) }
{
    let mut contents = Vec::new(alloc);
    contents.push(given.lp.clone()?)?;
    contents.push(given.cert.clone()?)?;
    Ok(contents)
}

// The files LOOP and CERT.
fn two_files(alloc: Global, given: &Given, failing: Option<u64>) -> Result<MemFiles, AllocError> {
    let names = names(alloc)?;
    let contents = contents(alloc, given)?;
    let failing = list_of(alloc, failing)?;
    Ok(MemFiles::new(alloc, names, contents, failing))
}

fn words_of(alloc: Global, values: &[&str]) -> Result<Vec<String>, AllocError> {
    let mut words = Vec::new(alloc);
    for value in values {
        words.push(String::from_str(alloc, value)?)?;
    }
    Ok(words)
}

/// How many bytes an answer may have.
const ROOM: usize = 100_000;

/// What a call has answered, and the units that it took.
#[derive(Drop)]
pub(crate) struct CallOutcome {
    pub(crate) status: Status,
    pub(crate) text: String,
    pub(crate) units: u64,
}

/// The outcome of a call with these words.
pub(crate) fn outcome(
    alloc: Global,
    given: &Given,
    words: &[&str],
) -> Result<CallOutcome, AllocError> {
    let words = words_of(alloc, words)?;
    let mut files = two_files(alloc, given, given.faults.read)?;
    let writes = list_of(alloc, given.faults.write)?;
    let mut sink = MemSink::new(alloc, ROOM, given.faults.most, writes)?;
    let mut meter = Meter::new(alloc);
    let status = invar(alloc, &words, &mut files, &mut sink, &mut meter);
    Ok(CallOutcome {
        status,
        text: String::from_utf8_lossy(alloc, sink.bytes())?,
        units: meter.used(),
    })
}

/// The status and the text of a call with these words.
pub(crate) fn answer(alloc: Global, given: &Given, words: &[&str]) -> Result<String, AllocError> {
    let outcome = outcome(alloc, given, words)?;
    format!(in alloc; "{} {}", outcome.status.code(), outcome.text)
}
