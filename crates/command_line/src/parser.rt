//! The grammar of the commands, as a `clap` command.

ghost use Rattle.std.specs.Prelude.{◌≡◌, ◌++◌, ◌∷◌, [], List, IfOk, OnOk, map, true, false};
ghost use Rattle.std.specs.List.{AllZip};
ghost use Rattle.clap.specs.Words.{App, Rule, app_of, rule_of, FailsBy, fault_of, subcommand_of};
ghost use Rattle.clap.specs.Words.{subcommand_rows_of};
ghost use Rattle.command_line.specs.CommandLines.{argument_texts};
ghost use Rattle.command_line.specs.inner.Forms.{flag_rule, option_rule, position_rule, free_rules};
ghost use Rattle.command_line.specs.inner.Forms.{app_with, command_of, HasRule, IsCommandOf};
ghost use Rattle.command_line.specs.inner.Forms.{bare_app, program_app, match_form, check_form};
ghost use Rattle.command_line.specs.inner.Forms.{show_form, make_form, serve_form};

use crate::serve::COLLECTION_NAMES;
use clap::{Arg, ArgAction, ArgMatches, Command, Error};
use std::alloc::{AllocError, Global};

/// A flag.
fn flag<'a>(alloc: Global, name: &'a str) -> Arg<'a>
    ensures rule { rule_of result ≡ flag_rule name.entry.now }
    ensures local { result.global ≡ false }
{
    Arg::new(alloc, name).long(name).action(ArgAction::SetTrue)
}

/// An option with a value.
fn option<'a>(alloc: Global, name: &'a str) -> Arg<'a>
    ensures rule { rule_of result ≡ option_rule name.entry.now }
    ensures local { result.global ≡ false }
{
    Arg::new(alloc, name).long(name)
}

/// A required positional argument.
fn position<'a>(alloc: Global, name: &'a str) -> Arg<'a>
    ensures rule { rule_of result ≡ position_rule true name.entry.now }
    ensures local { result.global ≡ false }
{
    Arg::new(alloc, name).required(true)
}

/// An optional positional argument.
fn free_position<'a>(alloc: Global, name: &'a str) -> Arg<'a>
    ensures rule { rule_of result ≡ position_rule false name.entry.now }
    ensures local { result.global ≡ false }
{
    Arg::new(alloc, name)
}

/// Adds optional positional arguments.
fn add_free_positions<'a>(
    alloc: Global,
    args: &mut Vec<Arg<'a>>,
    names: &'a [&'a str],
) -> Result<(), AllocError>
    ensures { (rules : List Rule) → AllZip HasRule args.old.items rules
        → OnOk result (AllZip HasRule args.new.items
        (rules ++ free_rules (map (λ name. name.now) names.entry.now))) }
{
    for name in names {
        args.push(free_position(alloc, name))?;
    }
    Ok(())
}

/// Adds a subcommand with these arguments. When out of memory, one call drops the whole list.
fn add_command<'a>(
    alloc: Global,
    commands: &mut Vec<Command<'a>>,
    name: &'a str,
    args: Vec<Arg<'a>>,
) -> Result<(), AllocError>
    ensures { (rules : List Rule) (apps : List App) → AllZip HasRule args.entry.items rules
        → AllZip IsCommandOf commands.old.items apps
        → OnOk result (AllZip IsCommandOf commands.new.items
        (apps ++ app_with name.entry.now rules ∷ [])) }
{
    let command = Command::new(alloc, name).args(args)?;
    commands.push(command)?;
    Ok(())
}

/// The program without subcommands. It has neither help nor version, and its arguments do not
/// include the program's name.
fn bare_program<'a>(alloc: Global) -> Command<'a>
    ensures { app_of result ≡ bare_app }
{
    Command::new(alloc, "stix_command")
        .no_binary_name(true)
        .disable_help_flag(true)
        .disable_help_subcommand(true)
        .disable_version_flag(true)
        .subcommand_required(true)
}

fn add_match<'a>(alloc: Global, commands: &mut Vec<Command<'a>>) -> Result<(), AllocError>
    ensures { (apps : List App) → AllZip IsCommandOf commands.old.items apps
        → OnOk result (AllZip IsCommandOf commands.new.items (apps ++ command_of match_form ∷ [])) }
{
    let args = vec![in alloc;
        flag(alloc, "whole"),
        option(alloc, "cap"),
        position(alloc, "pattern"),
    ]?;
    add_command(alloc, commands, "match", args)
}

fn add_check<'a>(alloc: Global, commands: &mut Vec<Command<'a>>) -> Result<(), AllocError>
    ensures { (apps : List App) → AllZip IsCommandOf commands.old.items apps
        → OnOk result (AllZip IsCommandOf commands.new.items (apps ++ command_of check_form ∷ [])) }
{
    add_command(alloc, commands, "check", Vec::new(alloc))
}

fn add_show<'a>(alloc: Global, commands: &mut Vec<Command<'a>>) -> Result<(), AllocError>
    ensures { (apps : List App) → AllZip IsCommandOf commands.old.items apps
        → OnOk result (AllZip IsCommandOf commands.new.items (apps ++ command_of show_form ∷ [])) }
{
    let args = vec![in alloc; position(alloc, "pattern")]?;
    add_command(alloc, commands, "show", args)
}

fn add_make<'a>(alloc: Global, commands: &mut Vec<Command<'a>>) -> Result<(), AllocError>
    ensures { (apps : List App) → AllZip IsCommandOf commands.old.items apps
        → OnOk result (AllZip IsCommandOf commands.new.items (apps ++ command_of make_form ∷ [])) }
{
    let args = vec![in alloc; position(alloc, "seed"), position(alloc, "count")]?;
    add_command(alloc, commands, "make", args)
}

fn add_serve<'a>(alloc: Global, commands: &mut Vec<Command<'a>>) -> Result<(), AllocError>
    ensures { (apps : List App) → AllZip IsCommandOf commands.old.items apps
        → OnOk result (AllZip IsCommandOf commands.new.items (apps ++ command_of serve_form ∷ [])) }
{
    let mut args = vec![in alloc;
        option(alloc, "port"),
        option(alloc, "connections"),
        option(alloc, "store"),
        option(alloc, "base"),
    ]?;
    add_free_positions(alloc, &mut args, &COLLECTION_NAMES)?;
    add_command(alloc, commands, "serve", args)
}

/// The program with its subcommands.
fn program<'a>(alloc: Global) -> Result<Command<'a>, AllocError>
    ensures { IfOk result (λ c. app_of c ≡ program_app) }
{
    let mut commands = Vec::new(alloc);
    add_match(alloc, &mut commands)?;
    add_check(alloc, &mut commands)?;
    add_show(alloc, &mut commands)?;
    add_make(alloc, &mut commands)?;
    add_serve(alloc, &mut commands)?;
    bare_program(alloc).subcommands(commands)
}

/// Parses the arguments with `clap`.
pub(crate) fn parse<'a>(alloc: Global, arguments: &'a [String]) -> Result<ArgMatches<'a>, Error>
    ensures matches { IfOk result
        (λ m. subcommand_rows_of m ≡ subcommand_of program_app
        (argument_texts arguments.entry.now)) }
    ensures exact { FailsBy (fault_of program_app (argument_texts arguments.entry.now)) result }
{
    let program = program(alloc)?;
    program.try_get_matches_from(arguments)
}
