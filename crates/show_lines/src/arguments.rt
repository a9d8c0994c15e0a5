//! The command-line arguments.

ghost use Rattle.std.specs.Prelude.{◌≡◌, ◌==◌, [], false, IfOk, codes, map, option_map, string_bytes, unwrap_or};
ghost use Rattle.std.specs.List.{before_first};
ghost use Rattle.clap.specs.Words.{app_of, first_value, found_of, kind_of, matched_of, one_text, raw_values, rule_of};
ghost use Rattle.show_lines.specs.Arguments.{IsRequest, IsWrong, RunsOrClashes, clash, clash_among, output_of};
ghost use Rattle.show_lines.specs.Command.{Asks, IsCommand, IsFlag, IsFormatRule, IsReplyTo, files_rule, flag_rule, form_of};

use crate::replies::{Reply, USAGE, VERSION};
use clap::error::ErrorKind;
use clap::{Arg, ArgAction, ArgMatches, Command, Error};
use link_show::LineOptions;
use std::alloc::{AllocError, Global};

/// The values of `--format`.
static FORMATS: [&str; 3] = ["plain", "debug", "json"];

/// How lists and messages are printed as text.
#[derive(Clone, Copy, Debug, PartialEq, Eq)]
pub enum Format {
    /// As text for people.
    Plain,
    /// As the `Debug` output of the values.
    Debug,
}

/// The options of a run that prints text.
#[derive(Clone, Copy, Debug, PartialEq, Eq)]
pub struct Options {
    /// How lists and messages are printed.
    pub format: Format,
    /// What lines are printed. Without effect in the debug form.
    pub lines: LineOptions,
}

/// What a run writes.
#[derive(Clone, Copy, Debug, PartialEq, Eq)]
pub enum Output {
    /// Text, by these options.
    Text(Options),
    /// A JSON document for each message.
    Json,
}

/// A value of `--format`.
#[derive(Clone, Copy)]
pub(crate) enum Form {
    Text(Format),
    Json,
}

/// What a run reads, and what it writes for that.
#[derive(Debug, Drop)]
pub struct Task {
    /// What is written.
    pub output: Output,
    /// Whether inputs are messages, one after another, in place of lines and captures.
    pub raw: bool,
    /// The names of the files to read, in order; `-` is standard input. Without any, standard input is read.
    pub files: Vec<String>,
}

/// What the command line asks for.
#[derive(Debug, Drop)]
pub enum Request {
    /// A run.
    Run(Task),
    /// A text in place of a run.
    Print(Reply),
}

/// Parses the command line: the program's name and the arguments. `clap` decides what they mean.
///
/// # Errors
///
/// `AllocError` if an allocation fails.
pub fn parse(alloc: Global, arguments: &Vec<String>) -> Result<Request, AllocError>
    ensures request { IfOk result IsRequest }
    ensures asked { IfOk result (Asks (map string_bytes arguments.now.items)) }
{
    match command(alloc)?.try_get_matches_from(arguments.as_slice()) {
        Ok(matches) => request_for(
            alloc,
            chosen(&matches),
            lines_in(&matches),
            matches.get_flag("raw"),
            named(alloc, &matches)?,
        ),
        Err(error) => reported(alloc, &error),
    }
}

/// Returns the request for this run, or for a wrong argument: only the plain form has `--check`
/// and `--brief`.
fn request_for(
    alloc: Global,
    form: Form,
    lines: LineOptions,
    raw: bool,
    files: Vec<String>,
) -> Result<Request, AllocError>
    ensures { IfOk result (RunsOrClashes form lines raw files) }
{
    if let Some(line) = clash_of(form, lines) {
        return wrong(alloc, line);
    }
    Ok(Request::Run(Task {
        output: output_of(form, lines),
        raw,
        files,
    }))
}

/// Returns why a form cannot have these options, if it cannot.
fn clash_of(form: Form, lines: LineOptions) -> Option<&'static str>
    ensures { option_map (λ text. text.now) result ≡ clash form lines }
{
    match form {
        Form::Text(Format::Plain) => None,
        Form::Text(Format::Debug) => clash_among(
            lines,
            "error: the argument '--format debug' cannot be used with '--check'",
            "error: the argument '--format debug' cannot be used with '--brief'",
        ),
        Form::Json => clash_among(
            lines,
            "error: the argument '--format json' cannot be used with '--check'",
            "error: the argument '--format json' cannot be used with '--brief'",
        ),
    }
}

/// Returns the text for the first of these options that is set.
fn clash_among(lines: LineOptions, check: &'static str, brief: &'static str) -> Option<&'static str>
    ensures { option_map (λ text. text.now) result ≡ clash_among lines check.now brief.now }
{
    if lines.check {
        return Some(check);
    }
    if lines.brief { Some(brief) } else { None }
}

/// Returns what a run in this form writes.
fn output_of(form: Form, lines: LineOptions) -> Output
    ensures { result ≡ output_of form lines }
{
    match form {
        Form::Text(format) => Output::Text(Options { format, lines }),
        Form::Json => Output::Json,
    }
}

/// Returns the request for a wrong argument, which prints `line` and the usage line.
///
/// # Errors
///
/// `AllocError` if an allocation fails.
pub fn wrong(alloc: Global, line: &str) -> Result<Request, AllocError>
    ensures { IfOk result (IsWrong line.now) }
{
    let mut text = String::new(alloc);
    text.push_str(line)?;
    text.push('\n')?;
    text.push_str(USAGE)?;
    Ok(Request::Print(Reply::Wrong(text)))
}

/// Describes the command line. `clap` adds `--help` and `--version`, whose texts are those of `Reply`.
fn command<'a>(alloc: Global) -> Result<Command<'a>, AllocError>
    ensures { IfOk result (λ command. IsCommand (app_of command)) }
{
    Command::new(alloc, "nlshow")
        .version(VERSION)
        .arg(format_option(alloc))?
        .arg(flag(alloc, "check"))?
        .arg(flag(alloc, "brief"))?
        .arg(flag(alloc, "raw"))?
        .arg(file_names(alloc))
}

/// Describes `--format`.
fn format_option<'a>(alloc: Global) -> Arg<'a>
    ensures { IsFormatRule (rule_of result) × (result.global ≡ false) }
{
    Arg::new(alloc, "format")
        .long("format")
        .value_name("FORMAT")
        .value_parser(FORMATS.as_slice())
        .default_value("plain")
}

/// Describes an option without a value.
fn flag<'a>(alloc: Global, name: &'a str) -> Arg<'a>
    ensures { (rule_of result ≡ flag_rule name.entry.now) × (result.global ≡ false) }
{
    Arg::new(alloc, name).long(name).action(ArgAction::SetTrue)
}

/// Describes the names of files.
fn file_names<'a>(alloc: Global) -> Arg<'a>
    ensures { (rule_of result ≡ files_rule) × (result.global ≡ false) }
{
    Arg::new(alloc, "FILE")
        .action(ArgAction::Append)
        .num_args(0..)
}

/// Returns the form in `matches`.
fn chosen(matches: &ArgMatches<'_>) -> Form
    ensures { result ≡ form_of (first_value (found_of matches.now) (codes "format")) }
{
    match matches.get_str("format") {
        Some("json") => Form::Json,
        Some("debug") => Form::Text(Format::Debug),
        _ => Form::Text(Format::Plain),
    }
}

/// Returns the options of lines in `matches`.
fn lines_in(matches: &ArgMatches<'_>) -> LineOptions
    ensures check { IsFlag (one_text (found_of matches.now) (codes "check")) result.check }
    ensures brief { IsFlag (one_text (found_of matches.now) (codes "brief")) result.brief }
{
    LineOptions {
        check: matches.get_flag("check"),
        brief: matches.get_flag("brief"),
    }
}

/// Returns the names of the files in `matches`.
///
/// # Errors
///
/// `AllocError` if an allocation fails.
fn named(alloc: Global, matches: &ArgMatches<'_>) -> Result<Vec<String>, AllocError>
    ensures { IfOk result (λ files. map string_bytes files.items
        ≡ unwrap_or (option_map raw_values (matched_of (found_of matches.now) (codes "FILE"))) []) }
{
    let mut files = Vec::new(alloc);
    if let Some(names) = matches.get_strs("FILE") {
        for name in names {
            files.push(String::from_str(alloc, name)?)?;
        }
    }
    Ok(files)
}

/// Returns the request that `clap` reports as an error.
fn reported(alloc: Global, error: &Error) -> Result<Request, AllocError>
    ensures request { IfOk result IsRequest }
    ensures reply { IfOk result (IsReplyTo (kind_of error.now)) }
{
    match error.kind() {
        ErrorKind::DisplayHelp => Ok(Request::Print(Reply::Help)),
        ErrorKind::DisplayVersion => Ok(Request::Print(Reply::Version)),
        ErrorKind::OutOfMemory => Err(AllocError),
        _ => {
            let text = format!(in alloc; "{error}")?;
            wrong(alloc, first_line(text.as_str()))
        }
    }
}

/// Returns what precedes the first LF, or the whole text.
fn first_line(text: &str) -> &str
    ensures { result.now ≡ before_first (λ b. b == 10) text.now }
{
    match text.split_once('\n') {
        Some((line, _)) => line,
        None => text,
    }
}
