// Files, a sink and a source in memory, where a call of them fails.

use gb_outside::{
    HeldFile, MemFiles, MemSink, MemSource, Numbers, ReadRefused, Source, read_whole, write_all,
};
use sqlite_items::Items;
use std::alloc::{AllocError, Global};

fn number(word: &str) -> u32 {
    word.parse::<u32>().unwrap_or(0)
}

/// The call of this number alone; no call has the number 0.
fn failing(alloc: Global, number: u32) -> Result<Numbers, AllocError> {
    let mut numbers = Items::new(alloc);
    numbers.push(u64::from(number))?;
    Ok(numbers)
}

/// How many bytes are read under a name, where `file` has so many and a call fails.
fn read(alloc: Global, len: u32, call: u32, name: &str) -> Result<usize, ReadRefused> {
    let mut held = Items::new(alloc);
    let bytes = vec![in alloc; 7u8; len as usize]?;
    held.push(HeldFile::new(String::from_str(alloc, "file")?, bytes))?;
    let mut files = MemFiles::new(held, failing(alloc, call)?);
    let bytes = read_whole(alloc, &mut files, name)?;
    Ok(bytes.len())
}

/// Whether five bytes are written where so many fit and a call fails, and how many are.
fn write(alloc: Global, room: u32, call: u32) -> Result<(bool, usize), AllocError> {
    let mut sink = MemSink::new(alloc, room as usize, failing(alloc, call)?)?;
    let all = write_all(&mut sink, b"hello").is_ok();
    Ok((all, sink.written().len()))
}

/// How many of five bytes are taken first, and then, up to four each time, where a call fails; 0 where it does.
fn take(alloc: Global, call: u32) -> Result<(usize, usize), AllocError> {
    let mut source = MemSource::new(b"hello".to_vec(alloc)?, failing(alloc, call)?);
    let mut buffer = [0; 4];
    let first = source.read(&mut buffer).unwrap_or(0);
    let second = source.read(&mut buffer).unwrap_or(0);
    Ok((first, second))
}

/// Does what a line says: `read` or `write` with a number of bytes and that of the call that fails, behind them the name that is read;
/// or `take` with the number of the call. Answers what it comes to.
pub fn outside_answer(alloc: Global, line: &str) -> Result<String, AllocError> {
    let (what, rest) = line.split_once(' ').unwrap_or((line, ""));
    let (len, rest) = rest.split_once(' ').unwrap_or((rest, ""));
    let (call, name) = rest.split_once(' ').unwrap_or((rest, ""));
    match what {
        "read" => match read(alloc, number(len), number(call), name) {
            Ok(bytes) => format!(in alloc; "{bytes}"),
            Err(ReadRefused::NoMemory) => Err(AllocError),
            Err(ReadRefused::Missing) => String::from_str(alloc, "missing"),
            Err(ReadRefused::ReadFault) => String::from_str(alloc, "fault"),
            Err(ReadRefused::Length) => String::from_str(alloc, "long"),
        },
        "write" => {
            let (all, written) = write(alloc, number(len), number(call))?;
            format!(in alloc; "{all} {written}")
        }
        _ => {
            let (first, second) = take(alloc, number(len))?;
            format!(in alloc; "{first} {second}")
        }
    }
}
