// Runs the cases of data/ through the libraries and prints a line for each.
//
// The arguments are the files of the groups, in the order of `main`. The cases and the lines that must come out are
// made by tests/reference/vectors.py, which says how a case is laid out; nothing here knows what a right answer is.
#![tactic(auto)]

mod crc_cases;
mod field_cases;
mod image_cases;
mod pair_cases;
mod pass_cases;
mod report_cases;
mod slot_cases;
mod start_cases;
mod store_cases;
mod support;

use std::env::Args;
use std::fs::File;
use std::io::{Read, Write};
use std::rt::Runtime;
use std::{env, io};
use support::Cases;

// The lines of a group's cases, one after the other: the group's name, the case's number, its values. Each case takes a byte
// at least, so there are no more of them than bytes.
fn print<W: Write, F: Fn(&mut W, &mut Cases<'_>) -> io::Result<()>>(
    line: &mut W,
    name: &[u8],
    file: &[u8],
    case: F,
) -> io::Result<()>
    requires { F.IsAlwaysCallable case }
{
    let mut cases = Cases::new(file);
    for index in 0..file.len() {
        if cases.is_empty() {
            break;
        }
        line.write_all(name)?;
        write!(line, " {index}")?;
        case(line, &mut cases)?;
        line.write_all(b"\n")?;
    }
    Ok(())
}

// Prints a group, from the file that the next argument names: the group's name and `.bin`. As much of it is read as room has.
fn group<R: Runtime, W: Write, F: Fn(&mut W, &mut Cases<'_>) -> io::Result<()>>(
    rt: &R,
    paths: &mut Args<R::A>,
    line: &mut W,
    case: F,
) -> io::Result<()>
    requires { F.IsAlwaysCallable case }
{
    let Some(path) = paths.next() else {
        return Ok(());
    };
    let mut file = Vec::new(rt.alloc());
    File::open(rt, &path)?.take(262144).read_to_end(&mut file)?;
    let name = path.as_bytes();
    if let Some(end) = name.len().checked_sub(4) {
        print(line, &name[..end], &file, case)?;
    }
    Ok(())
}

fn main(rt: HostRuntime) -> io::Result<()> {
    let mut paths = env::args(&rt)?;
    paths.next();
    let mut line = rt.stdout();
    group(&rt, &mut paths, &mut line, crc_cases::case)?;
    group(&rt, &mut paths, &mut line, field_cases::case)?;
    group(&rt, &mut paths, &mut line, slot_cases::case)?;
    group(&rt, &mut paths, &mut line, slot_cases::block)?;
    group(&rt, &mut paths, &mut line, image_cases::boot)?;
    group(&rt, &mut paths, &mut line, image_cases::launch)?;
    group(&rt, &mut paths, &mut line, start_cases::case)?;
    group(&rt, &mut paths, &mut line, image_cases::sparse)?;
    group(&rt, &mut paths, &mut line, store_cases::case)?;
    group(&rt, &mut paths, &mut line, store_cases::case)?;
    group(&rt, &mut paths, &mut line, image_cases::write)?;
    group(&rt, &mut paths, &mut line, pair_cases::compared)?;
    group(&rt, &mut paths, &mut line, pair_cases::joined)?;
    group(&rt, &mut paths, &mut line, report_cases::case)
}
