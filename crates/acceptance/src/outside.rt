// Files and a sink, by themselves.
use crate::rows::no_such_row;
use io_edge::{Files, FilesError, MemFiles, MemSink, OsFiles, Sink};
use std::alloc::{AllocError, Global};
use std::{fs, io};

// What reads give, one after another, each of a name and with a limit: the bytes, or how many they are and the last of them, or how it ended.
fn reads<F: Files>(
    alloc: Global,
    files: &mut F,
    values: &[&str],
    sizes: bool,
) -> Result<String, AllocError> {
    let mut text = String::new(alloc);
    for value in values {
        let (name, limit) = value.split_once(' ').unwrap_or((value, ""));
        if !text.is_empty() {
            text.push_str(", ")?;
        }
        let name = String::from_str(alloc, name)?;
        let read = files.read(alloc, &name, limit.parse().unwrap_or(0));
        push_read(alloc, &mut text, sizes, read)?;
    }
    Ok(text)
}

fn push_read(
    alloc: Global,
    text: &mut String,
    sizes: bool,
    read: Result<Vec<u8>, FilesError>,
) -> Result<(), AllocError> {
    match read {
        Ok(bytes) if sizes => write!(text, "{} to {:?}", bytes.len(), bytes.last()),
        Ok(bytes) => text.push_str(&String::from_utf8_lossy(alloc, &bytes)?),
        Err(error) => write!(text, "{error:?}"),
    }
}

// Files in memory of which `loop` has the bytes `abc`, and the fourth read fails.
fn files_in_memory(alloc: Global) -> Result<MemFiles, AllocError> {
    Ok(MemFiles::new(
        alloc,
        vec![in alloc; String::from_str(alloc, "loop")?]?,
        vec![in alloc; b"abc".to_vec(alloc)?]?,
        vec![in alloc; 4u64]?,
    ))
}

/// What reads of files in memory give, one after another.
pub(crate) fn memory_reads(alloc: Global, values: &[&str]) -> Result<String, AllocError> {
    reads(alloc, &mut files_in_memory(alloc)?, values, false)
}

// Writes the file that a value describes: its name, how many letters `a` it begins with, and what stands behind them.
fn write_file(alloc: Global, system: &HostRuntime, value: &str) -> io::Result<()> {
    let (name, content) = value.split_once(' ').unwrap_or((value, ""));
    let (letters, end) = content.split_once(' ').unwrap_or((content, ""));
    let mut text = "a".repeat(alloc, letters.parse().unwrap_or(0))?;
    text.push_str(end)?;
    fs::write(system, name, text)
}

/// What reads of the system's files give, one after another, behind the file that is written first; how much, where it is asked for `sizes`.
pub(crate) fn system_reads(
    alloc: Global,
    system: &HostRuntime,
    call: &str,
    values: &[&str],
) -> Result<String, AllocError> {
    let [file, values @ ..] = values else {
        return no_such_row(alloc);
    };
    if write_file(alloc, system, file).is_err() {
        return String::from_str(alloc, "not written");
    }
    reads(
        alloc,
        &mut OsFiles::new(alloc, system),
        values,
        call == "sizes",
    )
}

/// What three writes to a sink give that has room for four bytes and takes three at once, and the bytes taken.
pub(crate) fn writes(alloc: Global, values: &[&str]) -> Result<String, AllocError> {
    let [first, second, third] = values else {
        return no_such_row(alloc);
    };
    let mut sink = MemSink::new(alloc, 4, 3, Vec::new(alloc))?;
    let first = sink.write(first.as_bytes());
    let second = sink.write(second.as_bytes());
    let third = sink.write(third.as_bytes());
    let taken = String::from_utf8_lossy(alloc, sink.bytes())?;
    format!(in alloc; "{first:?}, {second:?}, {third:?}, {taken}")
}
