//! The program as `clap` sees it: one level of subcommands with positional words.
ghost use Rattle.std.specs.Prelude.{◌≡◌, ◌<◌, ◌+◌, ◌++◌, ◌∷◌, [], All, IfOk, OnOk, map, false, vec_len, vec_capacity};
ghost use Rattle.clap.specs.Words.{app_of, rule_of};
ghost use Rattle.clap.specs.Words.{shape_of as made};
ghost use Rattle.clap.specs.declared.builder.command.Command.TheViews.{out-Command};
ghost use Rattle.command_words.specs.Program.{program as whole, shape_of, value_of};

use clap::{Arg, Command};
use std::alloc::{AllocError, Global};

// The commands, each with its values in order: the name of a value, and whether the command asks for it.
static COMMANDS: [(&str, &[(&str, bool)]); 18] = [
    ("run", &[]),
    ("live", &[]),
    ("check", &[]),
    ("explain", &[]),
    ("audit", &[]),
    ("positions", &[("POOL", false)]),
    ("notices", &[("DATE", true), ("POOL", false)]),
    ("import", &[("LANE", true)]),
    ("weigh", &[("KIND", true), ("DATE", true)]),
    ("history", &[("POOL", false)]),
    ("statement", &[("ROUND", true), ("POOL", false)]),
    ("pools", &[]),
    ("since", &[("ACTS", true), ("POOL", false)]),
    ("seal", &[("ACTS", false)]),
    ("account", &[("FIRM", true), ("POOL", false)]),
    ("parts", &[("ROUND", true), ("POOL", false)]),
    (
        "forecast",
        &[("KIND", true), ("DATE", true), ("POOL", false)],
    ),
    (
        "trial",
        &[("FIRMS", true), ("CLAIMS", true), ("SEED", true)],
    ),
];

// The values of a command, in order.
fn args_of<'a>(alloc: Global, values: &[(&'a str, bool)]) -> Result<Vec<Arg<'a>>, AllocError>
    ensures rules { IfOk result (λ args. map (λ a. rule_of a) args.items ≡ map (λ v. value_of v.0.now v.1) values.now) }
    ensures local { IfOk result (λ args. All (λ a. a.global ≡ false) args.items) }
{
    let mut args = Vec::with_capacity(alloc, values.len())?;
    for (id, asked) in values {
        args.push_reserved(Arg::new(alloc, *id).required(*asked));
    }
    Ok(args)
}

// A command with its values.
fn command_of<'a>(
    alloc: Global,
    name: &'a str,
    values: &[(&'a str, bool)],
) -> Result<Command<'a>, AllocError>
    ensures shape { IfOk result (λ c. made c ≡ shape_of name.entry.now (map (λ v. value_of v.0.now v.1) values.now)) }
    ensures local { IfOk result (λ c. (out-Command c).has_globals ≡ false) }
{
    let args = args_of(alloc, values)?;
    Command::new(alloc, name).args(args)
}

// Puts a command with its values at the end of those that there is room for.
fn add<'a>(
    alloc: Global,
    commands: &mut Vec<Command<'a>>,
    name: &'a str,
    values: &[(&'a str, bool)],
) -> Result<(), AllocError>
    requires { vec_len commands.old < vec_capacity commands.old }

    // The command stands at the end, in the room that there was.
    ensures shapes { OnOk result (map (λ c. made c) commands.new.items
        ≡ map (λ c. made c) commands.old.items ++ shape_of name.entry.now (map (λ v. value_of v.0.now v.1) values.now) ∷ []) }
    ensures local { All (λ c. (out-Command c).has_globals ≡ false) commands.old.items
        → OnOk result (All (λ c. (out-Command c).has_globals ≡ false) commands.new.items) }
    ensures len { OnOk result (vec_len commands.new ≡ vec_len commands.old + 1) }
    ensures capacity { vec_capacity commands.new ≡ vec_capacity commands.old }
{
    commands.push_reserved(command_of(alloc, name, values)?);
    Ok(())
}

// The table of the commands.
fn table() -> &'static [(&'static str, &'static [(&'static str, bool)])]
    ensures { map (λ r. shape_of r.0.now (map (λ v. value_of v.0.now v.1) r.1.now)) result.now ≡ whole.subs }
{
    &COMMANDS
}

// All commands, in order.
fn commands<'a>(alloc: Global) -> Result<Vec<Command<'a>>, AllocError>
    ensures shapes { IfOk result (λ cs. map (λ c. made c) cs.items ≡ whole.subs) }
    ensures local { IfOk result (λ cs. All (λ c. (out-Command c).has_globals ≡ false) cs.items) }
{
    let rows = table();
    let mut commands = Vec::with_capacity(alloc, rows.len())?;
    for (name, values) in rows {
        add(alloc, &mut commands, *name, *values)?;
    }
    Ok(commands)
}

/// The program with its commands. The only error is that memory is missing.
pub(crate) fn program<'a>(alloc: Global) -> Result<Command<'a>, AllocError>
    ensures shape { IfOk result (λ c. app_of c ≡ whole) }
{
    let commands = commands(alloc)?;
    Command::new(alloc, "bureau")
        .no_binary_name(true)
        .disable_help_flag(true)
        .disable_help_subcommand(true)
        .subcommand_required(true)
        .subcommands(commands)
}
