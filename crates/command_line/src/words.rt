//! The words of the command line.
ghost use Rattle.std.specs.Prelude.{◌≡◌, ◌++◌, ◌∷◌, [], false, map, codes, IfOk, IfSome};
ghost use Rattle.clap.specs.Simple.{App, Shape, app_of, shape_of, new_shape, with_subcommand};
ghost use Rattle.clap.specs.declared.builder.command.Command.TheViews.{out-Command as fields_of};
ghost use Rattle.clap.specs.Kinds.{FailsBy};
ghost use Rattle.clap.specs.Matches.{found_of};
ghost use Rattle.clap.specs.Walk.{Rule, first_of, rule_of, rows_of};
ghost use Rattle.command_line.specs.CommandLine.{program, top_program, word_rule, text_rule, flag_rule, workers_rule, groups_rule, file_shape, sharing_shape, debug_shape, run_shape, figures_shape, code_shape, IsBelow, word_faults, AskFor, WordsAskForOne, WordsHaveOneAnswer, WordsOfSubcommands, WordsOfText, WordsOfMistake};
ghost use Rattle.command_line.specs.Given.{AreOptions, AreOfTask, AreOfSubcommand, AreOfAsked, IsSharing, IsCounting};
ghost use Rattle.command_line.specs.Wishes.{is_true, wishes_in};
ghost use Rattle.command_line.specs.Subcommand.{word_of, asked_word, counting_of as task_counting, sharing_of as task_sharing};
ghost use Rattle.command_line.specs.declared.subcommand.Task.{Task};

use crate::sharing::Sharing;
use crate::subcommand::{Asked, Counting, OptionalWord, Subcommand, Task, Wishes};
use clap::{Arg, ArgAction, ArgMatches, Command, Error, value_parser};
use std::alloc::{AllocError, Global};
use std::convert::AsStr;

/// The version of the whole, with that of each format: what python/tcpsim/__init__.py has.
const VERSION: &str = "0.2.0 (trace 1, image 2, figures 4, prompt 14)";

/// The program's command without its subcommands.
fn top_command<'a>(alloc: Global) -> Command<'a>
    ensures { app_of result ≡ top_program }
{
    Command::new(alloc, "tcpsim")
        .about("Simulate TCP flows through bottlenecks, packet by packet")
        .version(VERSION)
        .disable_help_subcommand(true)
        .subcommand_required(true)
}

/// What is said of a scenario's file, and of one over which commands are typed.
const FILE: &str = "The scenario's file; without it, or where it is -, standard input";

const SESSION_FILE: &str =
    "The scenario's file, and commands are typed; without it, or where it is -, standard input has both";

/// A word that stands alone.
fn lone_word<'a>(alloc: Global, id: &'a str, value: &'a str, help: &'a str) -> Arg<'a>
    ensures rule { rule_of result ≡ word_rule id.entry.now }
    ensures local { result.global ≡ false }
{
    Arg::new(alloc, id).value_name(value).help(help)
}

/// An option that has a text.
fn text_option<'a>(alloc: Global, id: &'a str, value: &'a str, help: &'a str) -> Arg<'a>
    ensures rule { rule_of result ≡ text_rule id.entry.now }
    ensures local { result.global ≡ false }
{
    Arg::new(alloc, id).long(id).value_name(value).help(help)
}

/// A flag.
fn flag<'a>(alloc: Global, id: &'a str, help: &'a str) -> Arg<'a>
    ensures rule { rule_of result ≡ flag_rule id.entry.now }
    ensures local { result.global ≡ false }
{
    Arg::new(alloc, id)
        .long(id)
        .action(ArgAction::SetTrue)
        .help(help)
}

/// The flag for being told how far a run is.
const PROGRESS: &str = "Say on standard error how far the run is";

/// The flag for being shown why an input is refused.
const EXPLAIN: &str = "Show on standard error why an input is refused";

/// A subcommand that takes nothing.
fn plain_subcommand<'a>(alloc: Global, name: &'a str, about: &'a str) -> Command<'a>
    ensures shape { shape_of result ≡ new_shape name.entry.now }
    ensures no_globals { (fields_of result).has_globals ≡ false }
{
    Command::new(alloc, name).about(about)
}

/// The option that says how many workers run the groups.
fn workers_option<'a>(alloc: Global) -> Arg<'a>
    ensures rule { rule_of result ≡ workers_rule }
    ensures local { result.global ≡ false }
{
    Arg::new(alloc, "workers")
        .long("workers")
        .value_name("N")
        .value_parser(value_parser!(usize).range(1..=64))
        .default_value("1")
        .help(
            "Workers for --groups, 1 to 64; they pay where a window holds thousands of events, and else may take half again as long",
        )
}

/// The option that says which group each node is in.
fn groups_option<'a>(alloc: Global) -> Arg<'a>
    ensures rule { rule_of result ≡ groups_rule }
    ensures local { result.global ≡ false }
{
    Arg::new(alloc, "groups")
        .long("groups")
        .value_name("G")
        .default_value("one")
        .help("The group of each node: one, each, auto, or numbers as in 0,0,1")
}

/// A subcommand with one more argument, where there was memory for it.
fn with_arg<'a>(
    command: Result<Command<'a>, AllocError>,
    arg: Arg<'a>,
) -> Result<Command<'a>, AllocError>
    ensures { (shape : Shape) (rule : Rule) → IfOk command.entry (IsBelow shape) → rule_of arg.entry ≡ rule → arg.entry.global ≡ false → IfOk result (IsBelow (record shape { rules = shape.rules ++ rule ∷ [] })) }
{
    command?.arg(arg)
}

/// A subcommand that takes a scenario's file and a flag.
fn file_subcommand<'a>(
    alloc: Global,
    name: &'a str,
    about: &'a str,
) -> Result<Command<'a>, AllocError>
    ensures { IfOk result (IsBelow (file_shape name.entry.now)) }
{
    let plain = Ok(plain_subcommand(alloc, name, about));
    let with_file = with_arg(plain, lone_word(alloc, "file", "FILE", FILE));
    with_arg(with_file, flag(alloc, "explain", EXPLAIN))
}

/// A subcommand that takes a moment, a step, a scenario's file and four flags.
fn figures_subcommand<'a>(
    alloc: Global,
    name: &'a str,
    about: &'a str,
) -> Result<Command<'a>, AllocError>
    ensures { IfOk result (IsBelow (figures_shape name.entry.now)) }
{
    let plain = Ok(plain_subcommand(alloc, name, about));
    let from = "Count from this moment on, as 1.5s, 20ms or 10000ns";
    let with_from = with_arg(plain, text_option(alloc, "from", "T", from));
    let every = "Print rows by time behind the table, a row a figure, in steps as 1.5s or 20ms";
    let with_every = with_arg(with_from, text_option(alloc, "every", "D", every));
    let series = "Print the rows of --every without the table";
    let with_series = with_arg(with_every, flag(alloc, "series", series));
    let names = "Print the names of a text's flows and links in a last column";
    let with_names = with_arg(with_series, flag(alloc, "names", names));
    let with_file = with_arg(with_names, lone_word(alloc, "file", "FILE", FILE));
    let with_progress = with_arg(with_file, flag(alloc, "progress", PROGRESS));
    with_arg(with_progress, flag(alloc, "explain", EXPLAIN))
}

/// A subcommand that takes the options on how a run is shared out.
fn sharing_subcommand<'a>(
    alloc: Global,
    name: &'a str,
    about: &'a str,
) -> Result<Command<'a>, AllocError>
    ensures { IfOk result (IsBelow (sharing_shape name.entry.now)) }
{
    let plain = Ok(plain_subcommand(alloc, name, about));
    let with_workers = with_arg(plain, workers_option(alloc));
    with_arg(with_workers, groups_option(alloc))
}

/// A subcommand that takes these options, a scenario's file and the flag of why.
fn debug_subcommand<'a>(
    alloc: Global,
    name: &'a str,
    about: &'a str,
) -> Result<Command<'a>, AllocError>
    ensures { IfOk result (IsBelow (debug_shape name.entry.now)) }
{
    let shared = sharing_subcommand(alloc, name, about);
    let with_file = with_arg(shared, lone_word(alloc, "file", "FILE", SESSION_FILE));
    with_arg(with_file, flag(alloc, "explain", EXPLAIN))
}

/// A subcommand that takes these options, a scenario's file and two flags.
fn run_subcommand<'a>(
    alloc: Global,
    name: &'a str,
    about: &'a str,
) -> Result<Command<'a>, AllocError>
    ensures { IfOk result (IsBelow (run_shape name.entry.now)) }
{
    let shared = sharing_subcommand(alloc, name, about);
    let with_file = with_arg(shared, lone_word(alloc, "file", "FILE", FILE));
    let with_progress = with_arg(with_file, flag(alloc, "progress", PROGRESS));
    with_arg(with_progress, flag(alloc, "explain", EXPLAIN))
}

/// A subcommand that takes a code.
fn code_subcommand<'a>(
    alloc: Global,
    name: &'a str,
    about: &'a str,
) -> Result<Command<'a>, AllocError>
    ensures { IfOk result (IsBelow (code_shape name.entry.now)) }
{
    let help = "The code, as it stands behind `refused`";
    let plain = Ok(plain_subcommand(alloc, name, about));
    with_arg(plain, lone_word(alloc, "code", "CODE", help))
}

/// A command with one more subcommand, where there was memory for both.
fn with_below<'a>(
    above: Result<Command<'a>, AllocError>,
    below: Result<Command<'a>, AllocError>,
) -> Result<Command<'a>, AllocError>
    ensures { (app : App) (shape : Shape) → IfOk above.entry (λ command. app_of command ≡ app) → IfOk below.entry (IsBelow shape) → IfOk result (λ command. app_of command ≡ with_subcommand app shape) }
{
    let Ok(above) = above else {
        return Err(AllocError);
    };
    let Ok(below) = below else {
        return Err(AllocError);
    };
    above.subcommand(below)
}

/// The commands of the program.
fn commands<'a>(alloc: Global) -> Result<Command<'a>, AllocError>
    ensures { IfOk result (λ command. app_of command ≡ program) }
{
    let asm = "Write the image of a scenario";
    let with_asm = with_below(Ok(top_command(alloc)), file_subcommand(alloc, "asm", asm));
    let dis = "Write the canonical text of a scenario";
    let with_dis = with_below(with_asm, file_subcommand(alloc, "dis", dis));
    let run = "Run a scenario and print its trace";
    let with_run = with_below(with_dis, run_subcommand(alloc, "run", run));
    let figures = "Run a scenario and print its figures, as comma-separated values";
    let with_figures = with_below(with_run, figures_subcommand(alloc, "figures", figures));
    let debug = "Walk through a run by commands, forwards and backwards";
    let with_debug = with_below(with_figures, debug_subcommand(alloc, "debug", debug));
    let explain = "Say what a code means, with an example, or list all codes";
    with_below(with_debug, code_subcommand(alloc, "explain", explain))
}

/// How the options of a subcommand share a run out.
fn sharing_of<'a>(options: &ArgMatches<'a>) -> Sharing<'a>
    requires { AreOptions (rows_of (found_of options.now)) }
    ensures { IsSharing (rows_of (found_of options.now)) result }
{
    let Some(workers) = options.get_one::<usize>("workers") else {
        unreachable!()
    };
    let Some(groups) = options.get_str("groups") else {
        unreachable!()
    };
    Sharing::new(workers, groups)
}

/// The word that the options give to one of them, where they have it.
fn word_in<'a>(options: &ArgMatches<'a>, name: &str) -> OptionalWord<'a>
    ensures { first_of name.now (rows_of (found_of options.now)) ≡ result }
{
    OptionalWord::new(options.get_str(name))
}

/// Which figures are written, as the options say it.
fn counting_of<'a>(options: &ArgMatches<'a>) -> Counting<'a>
    ensures { IsCounting (rows_of (found_of options.now)) result }
{
    Counting {
        from: word_in(options, "from"),
        every: word_in(options, "every"),
        series: is_set(options, "series"),
        names: is_set(options, "names"),
    }
}

/// The task of a subcommand's word and options.
fn task_of<'a>(word: &str, options: &ArgMatches<'a>) -> Task<'a>
    requires { AreOfTask word.now (rows_of (found_of options.now)) }
    ensures word { word.now ≡ word_of result }
    ensures sharing { IfSome (task_sharing result) (IsSharing (rows_of (found_of options.now))) }
    ensures counting { IfSome (task_counting result) (IsCounting (rows_of (found_of options.now))) }
{
    if word == "asm" {
        Task::Scenario(Subcommand::Asm)
    } else if word == "dis" {
        Task::Scenario(Subcommand::Dis)
    } else if word == "figures" {
        Task::Scenario(Subcommand::Figures(counting_of(options)))
    } else if word == "run" {
        Task::Scenario(Subcommand::Run(sharing_of(options)))
    } else {
        Task::Debug(sharing_of(options))
    }
}

/// Whether a flag is among the options.
fn is_set<'a>(options: &ArgMatches<'a>, flag: &str) -> bool
    ensures { result ≡ is_true (first_of flag.now (rows_of (found_of options.now))) }
{
    match options.get_str(flag) {
        Some(value) => value == "true",
        None => false,
    }
}

/// What the options wish beside the output.
fn wishes_of<'a>(options: &ArgMatches<'a>) -> Wishes
    ensures { result ≡ wishes_in (rows_of (found_of options.now)) }
{
    Wishes {
        progress: is_set(options, "progress"),
        explain: is_set(options, "explain"),
    }
}

/// What a subcommand's word and options ask for.
fn asked_of<'a>(word: &str, options: &ArgMatches<'a>) -> Asked<'a>
    requires { AreOfSubcommand word.now (rows_of (found_of options.now)) }
    ensures word { word.now ≡ asked_word result }
    ensures said { AreOfAsked (rows_of (found_of options.now)) result }
{
    if word == "explain" {
        Asked::Explanation(OptionalWord::new(options.get_str("code")))
    } else {
        let task = task_of(word, options);
        let file = OptionalWord::new(options.get_str("file"));
        Asked::Session(task, file, wishes_of(options))
    }
}

/// Judges the words, the program's name first. They ask for a subcommand, or the error has what to
/// print.
pub fn read_words<'a, S: AsStr>(alloc: Global, words: &'a [S]) -> Result<Asked<'a>, Error>
    ensures faults { FailsBy (word_faults (map S.text words.now)) result }
    ensures asked { IfOk result (AskFor (map S.text words.now)) }
{
    let matches = commands(alloc)?.try_get_matches_from(words)?;
    match matches.subcommand() {
        Some((word, options)) => Ok(asked_of(word, options)),
        None => unreachable!(),
    }
}

/// Words without a fault ask for one subcommand.
pub fn words_ask_for_one_subcommand()
    ensures { WordsAskForOne }
{}

/// All words ask for a subcommand, are mistaken or ask for a text, and are but one of these.
pub fn words_have_one_answer()
    ensures { WordsHaveOneAnswer }
{}

/// The words `tcpsim asm`, `tcpsim dis`, `tcpsim run`, `tcpsim figures`, `tcpsim debug` and
/// `tcpsim explain` ask for their subcommands, with a file, options or a code, or without.
pub fn subcommands_are_asked_for()
    ensures { WordsOfSubcommands }
{}

/// `--help` and `--version` ask for a text.
pub fn help_and_version_are_asked_for()
    ensures { WordsOfText }
{}

/// The program's name alone is mistaken, a second file, also one of `debug`, a number of workers that
/// is not from 1 to 64, an option of `asm` or `figures`, and a second code.
pub fn other_words_are_mistaken()
    ensures { WordsOfMistake }
{}
