//! Prints netlink messages about links, and lists of their attributes, as text or as JSON.
//!
//! Usage: `nlshow [--format plain|debug|json] [--check] [--brief] [--raw] [FILE].. | --help | --version`. Each FILE, or standard input, is
//! a capture (pcap or pcapng), or with `--raw` messages, one after another, or has lines. Each line is one of
//!
//! - `FAMILY HEX`: the bytes of a list. FAMILY is the name of a `Family`;
//! - `check FAMILY HEX`: the same; reports whether the list is canonical;
//! - `message HEX`: the bytes of messages.
//!
//! White space separates the words. Blank lines, and lines that begin with `#`, are ignored. The FILE `-` is standard
//! input. Wrong arguments, and why a FILE cannot be opened or read, are reported on standard error, and so is a failed write,
//! unless nobody reads what is written.
#![tactic(auto)]

#[cfg(test)]
mod tests;

ghost use Rattle.std.specs.Prelude.{◌≡◌, ◌≢◌, ◌∷◌, ◌++◌, [], false, IfOk, MatchOption, OnOk, codes, map, string_bytes};
ghost use Rattle.std.specs.Option.{option_copied};
ghost use Rattle.std.specs.Io.Buffered.{writer_buffer, writer_inner};
ghost use Rattle.std.specs.Io.KnownBytes.{Appends};
ghost use Rattle.link_show.specs.Quoted.{quoted};
ghost use Rattle.nlshow.specs.Runs.{IsSource, IsText, IsUnopened, RunsFile, RunsInput, RunsOn, RunsTask, goes_on, name_line, read_reason, told_name};
ghost use Rattle.program.specs.Printing.{PrintsOrFails, PrintsOrEnds, no_memory_line};
ghost use Rattle.program.specs.Told.{Tells, told};
ghost use Rattle.program.specs.UntilEnd.{errno_of, left_of};
ghost use Rattle.program.specs.Watched.{given, has_failed, passed_on};
ghost use Rattle.show_lines.specs.Arguments.{IsError, IsRequest, IsWrong, reply_status, reply_text};
ghost use Rattle.show_lines.specs.Command.{Asks};

use link_json::Document;
use link_show::write_quoted;
use program::{
    UntilEnd, Watched, collect_arguments, end_failed, print, print_no_memory, print_text,
    print_write_fault, unbuffered,
};
use show_captures::{run, tell_reason};
use show_json::{Json, write_unopened};
use show_lines::{Output, Reply, Request, Task, parse, wrong};
use std::alloc::{AllocError, Global};
use std::io::{BufWriter, Read, Write};
use std::process::ExitCode;
use std::rt::Files;
use std::{fs, io};

/// What is wrong if an argument is not UTF-8, as the paths of std are.
const NOT_UTF8: &str = "error: an argument is not UTF-8; read such a file by nlshow < FILE";

fn main(rt: HostRuntime) -> ExitCode {
    let mut errors = Watched::new(rt.stderr());
    let mut plain = unbuffered(rt.alloc(), Watched::new(io::writer(&rt)));
    let request = match collect_arguments(&rt) {
        Ok(words) => request_of(rt.alloc(), words),
        Err(error) => Err(error),
    };
    let status = match request {
        Ok(Request::Run(task)) => {
            match BufWriter::new(rt.alloc(), Watched::new(io::writer(&rt))) {
                Ok(mut writer) => {
                    let status = run_task(&rt, &task, &mut writer, &mut errors);
                    let _ = print_write_fault(&writer, &mut errors);
                    status
                }
                Err(_) => end_without_buffer(&mut plain, task.output),
            }
        }
        Ok(Request::Print(reply)) => print_reply(&mut plain, &mut errors, &reply),
        Err(_) => print_no_memory(&mut plain),
    };
    let _ = print_write_fault(&plain, &mut errors);
    ExitCode::from(status)
}

/// Prints that an allocation failed, except as JSON. Returns 4, or 5 if the writer fails.
fn end_without_buffer<W: Write + Drop>(writer: &mut BufWriter<Watched<W>>, output: Output) -> u8
    ensures text { IsText output → PrintsOrFails (given W.contents writer.old) (passed_on W.contents writer.new)
        no_memory_line 4 result (has_failed (writer_inner writer.new)) }
    ensures json { ¬ IsText output → (result ≡ 4) × (writer.new ≡ writer.old) }
{
    match output {
        Output::Text(_) => print_no_memory(writer),
        Output::Json => 4,
    }
}

/// Returns what the command line asks for. `words` is the program's name and the arguments, or `None` if one of them is
/// not UTF-8.
///
/// # Errors
///
/// `AllocError` if an allocation fails.
fn request_of(alloc: Global, words: Option<Vec<String>>) -> Result<Request, AllocError>
    ensures request { IfOk result (λ request. MatchOption words
        (IsWrong (codes "error: an argument is not UTF-8; read such a file by nlshow < FILE") request)
        (λ _. IsRequest request)) }
    ensures asked { IfOk result (λ request. MatchOption words
        (IsWrong (codes "error: an argument is not UTF-8; read such a file by nlshow < FILE") request)
        (λ words. Asks (map string_bytes words.items) request)) }
{
    match words {
        Some(words) => parse(alloc, &words),
        None => wrong(alloc, NOT_UTF8),
    }
}

/// Runs on standard input, or on each file of `task` in order. Nothing more is read after a failed allocation, or when the
/// writer has failed. Why a file cannot be opened or read is written to `errors`. Returns the greatest exit status.
fn run_task<R: Files + Input + AllocGlobal, W: Write + Drop, E: Write>(
    rt: &R,
    task: &Task,
    writer: &mut BufWriter<Watched<W>>,
    errors: &mut Watched<E>,
) -> u8
    ensures input { task.now.files.items ≡ [] → RunsInput R.Reader.remaining task.now.output task.now.raw
        (given W.contents writer.old) (passed_on W.contents writer.new) (has_failed (writer_inner writer.new)) result
        (told E.contents errors.old) (told E.contents errors.new) }
    ensures files { task.now.files.items ≢ [] → RunsTask (IsSource R.Reader.remaining R.File.remaining) task.now.output task.now.raw
        (map string_bytes task.now.files.items) (given W.contents writer.old) (passed_on W.contents writer.new)
        (has_failed (writer_inner writer.new)) result (told E.contents errors.old) (told E.contents errors.new) }
{
    if task.files.is_empty() {
        let reader = &mut UntilEnd::new(rt.reader());
        return run_told(rt.alloc(), task, None, reader, writer, errors);
    }
    let mut greatest = 0;
    for name in &task.files {
        let status = run_file(rt, task, name.as_str(), writer, errors);
        greatest = greatest.max(status);
        if !goes_on(status, writer) {
            break;
        }
    }
    greatest
}

/// Returns whether the file after one with this exit status is read: not after a failed allocation, or when the writer has
/// failed.
fn goes_on<W: Write + Drop>(status: u8, writer: &BufWriter<Watched<W>>) -> bool
    ensures { result ≡ goes_on status (has_failed (writer_inner writer.now)) }
{
    status != 4 && !writer.get_ref().has_failed()
}

/// Runs on an input: a file with this name, or standard input. Writes to `errors` why a read failed. Returns the exit status.
fn run_told<R: Read, W: Write + Drop, E: Write>(
    alloc: Global,
    task: &Task,
    file: Option<&str>,
    reader: &mut UntilEnd<R>,
    writer: &mut BufWriter<Watched<W>>,
    errors: &mut Watched<E>,
) -> u8
    ensures run { RunsOn task.now.output (option_copied file.entry) task.now.raw (left_of R.remaining reader.old) (left_of R.remaining reader.new)
        (given W.contents writer.old) (passed_on W.contents writer.new) (has_failed (writer_inner writer.new)) result }
    ensures told { Tells (told E.contents errors.old) (told E.contents errors.new)
        (read_reason (told_name (option_copied file.entry)) (errno_of reader.new) result (has_failed (writer_inner writer.new))) }
    ensures unfailed { has_failed (writer_inner writer.new) ≡ false → writer_buffer writer.new ≡ [] }
{
    let status = run_on(alloc, task.output, task.raw, file, reader, writer);
    if status == 5 && !writer.get_ref().has_failed() {
        tell_reason(errors, told_name(file), reader.errno(), "read fault");
    }
    status
}

/// Returns the name of an input on standard error: `-` for standard input.
fn told_name<'a>(file: Option<&'a str>) -> &'a str
    ensures { result.now ≡ told_name (option_copied file.entry) }
{
    match file {
        Some(name) => name,
        None => "-",
    }
}

/// Runs on an input: a file with this name, or standard input. Returns the exit status.
fn run_on<R: Read, W: Write + Drop>(
    alloc: Global,
    output: Output,
    raw: bool,
    file: Option<&str>,
    reader: &mut UntilEnd<R>,
    writer: &mut BufWriter<Watched<W>>,
) -> u8
    ensures run { RunsOn output (option_copied file.entry) raw (left_of R.remaining reader.old) (left_of R.remaining reader.new)
        (given W.contents writer.old) (passed_on W.contents writer.new) (has_failed (writer_inner writer.new)) result }
    ensures unfailed { has_failed (writer_inner writer.new) ≡ false → writer_buffer writer.new ≡ [] }
{
    match output {
        Output::Text(options) => run(alloc, &options, &mut (), raw, reader, writer),
        Output::Json => {
            let mut doc = Document::new(alloc);
            run(alloc, &Json { file }, &mut doc, raw, reader, writer)
        }
    }
}

/// Writes the line with the name of a file, which JSON does not have, and runs on the file; `-` is standard input. Writes to
/// `errors` why it cannot be opened or read. Returns the exit status, which then is 5.
fn run_file<R: Files + Input + AllocGlobal, W: Write + Drop, E: Write>(
    rt: &R,
    task: &Task,
    name: &str,
    writer: &mut BufWriter<Watched<W>>,
    errors: &mut Watched<E>,
) -> u8
    ensures run { RunsFile (IsSource R.Reader.remaining R.File.remaining) task.now.output task.now.raw name.now
        (given W.contents writer.old) (passed_on W.contents writer.new) (has_failed (writer_inner writer.new)) result
        (told E.contents errors.old) (told E.contents errors.new) }
    ensures unfailed { has_failed (writer_inner writer.new) ≡ false → writer_buffer writer.new ≡ [] }
{
    if write_name(writer, task.output, name).is_err() {
        return end_failed(writer);
    }
    if name == "-" {
        let reader = &mut UntilEnd::new(rt.reader());
        return run_told(rt.alloc(), task, Some(name), reader, writer, errors);
    }
    match fs::open(rt, name) {
        Ok(file) => {
            let reader = &mut UntilEnd::new(file);
            run_told(rt.alloc(), task, Some(name), reader, writer, errors)
        }
        Err(error) => {
            let status = end_unopened(rt.alloc(), task.output, name, writer);
            tell_reason(errors, name, error.raw_os_error(), "cannot open");
            status
        }
    }
}

/// Writes that a file cannot be opened. Returns the exit status: 5, or 4 if an allocation fails.
fn end_unopened<W: Write + Drop>(
    alloc: Global,
    output: Output,
    name: &str,
    writer: &mut BufWriter<Watched<W>>,
) -> u8
    ensures written { IsUnopened output name.now result (given W.contents writer.old) (passed_on W.contents writer.new)
        (has_failed (writer_inner writer.new)) }
    ensures unfailed { has_failed (writer_inner writer.new) ≡ false → writer_buffer writer.new ≡ [] }
{
    match output {
        Output::Text(_) => print(writer, "cannot open\n", 5),
        Output::Json => write_unopened(alloc, name, writer),
    }
}

/// Writes the line that precedes the output for a file, if it is text.
///
/// # Errors
///
/// That of the writer.
fn write_name<W: Write>(writer: &mut W, output: Output, name: &str) -> io::Result<()>
    ensures { OnOk result (Appends (W.contents writer.old) (W.contents writer.new) (name_line output name.now)) }
{
    match output {
        Output::Text(_) => write_text_name(writer, name),
        Output::Json => Ok(()),
    }
}

fn write_text_name<W: Write>(writer: &mut W, name: &str) -> io::Result<()>
    ensures { OnOk result (Appends (W.contents writer.old) (W.contents writer.new)
        (codes "file " ++ (quoted name.now ++ 10 ∷ []))) }
{
    writer.write_all(b"file ")?;
    write_quoted(writer, name.as_bytes())?;
    writer.write_all(b"\n")
}

/// Prints a reply: to `errors` what is wrong with the arguments, and any other to `writer`, which is flushed. Returns the
/// reply's exit status, or 5 if the writer fails.
fn print_reply<W: Write + Drop, E: Write>(
    writer: &mut BufWriter<Watched<W>>,
    errors: &mut E,
    reply: &Reply,
) -> u8
    ensures wrong { IsError reply.now → PrintsOrEnds (E.contents errors.old) (E.contents errors.new)
        (reply_text reply.now) (reply_status reply.now) result × (writer.new ≡ writer.old) }
    ensures written { ¬ IsError reply.now → PrintsOrFails (given W.contents writer.old) (passed_on W.contents writer.new)
        (reply_text reply.now) (reply_status reply.now) result (has_failed (writer_inner writer.new)) × (errors.new ≡ errors.old) }
    ensures empty { ¬ IsError reply.now → result ≢ 5 → writer_buffer writer.new ≡ [] }
{
    match reply {
        Reply::Wrong(text) => print_text(errors, text.as_str(), reply.status()),
        Reply::Help | Reply::Version => print(writer, reply.text(), reply.status()),
    }
}
