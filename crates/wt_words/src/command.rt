//! Commands, and the words that are one.
ghost use Rattle.std.specs.Prelude.{◌≡◌, ◌≤◌, map, string_bytes, IfOk};
ghost use Rattle.wt_words.specs.Commands as spec;
ghost use Rattle.wt_words.specs.Settings as settings_spec;

use crate::fault::UsageFault;
use crate::settings::{Settings, number, settings_from};
use wt_pair::Bounds;

/// A command with what its words give.
#[derive(Clone, Copy, Debug)]
pub enum Command<'a> {
    /// Finds the rules of bounds with so many workers.
    Discover {
        bounds: Bounds,
        workers: u32,
    },
    /// Proves the rules of a file.
    Check {
        rules: &'a str,
    },
    /// Rewrites the statements of a file by the rules of a file, over a schema.
    Rewrite {
        rules: &'a str,
        schema: &'a str,
        queries: &'a str,
    },
    /// Rewrites so many made-up queries from a number on.
    Demo {
        first: u32,
        count: u32,
    },
}

fn discovery<'a>(settings: &Settings) -> Result<Command<'a>, UsageFault>
    requires { settings_spec.AreLimited settings.now }
    ensures reads { spec.Reads result (spec.discovery settings.now settings.now.src settings.now.dst settings.now.ops) }
    ensures limited { IfOk result spec.IsLimited }
{
    match (settings.src, settings.dst, settings.ops) {
        (Some(src), Some(dst), Some(ops)) => Ok(Command::Discover {
            bounds: Bounds {
                src,
                dst,
                ops,
                depth: settings.depth.unwrap_or(64),
                steps: settings.steps.unwrap_or(8),
            },
            workers: settings.workers.unwrap_or(4),
        }),
        _ => Err(UsageFault::MissingKey),
    }
}

fn discover<'a>(words: &[String]) -> Result<Command<'a>, UsageFault>
    ensures reads { spec.Reads result (spec.discovery_of (settings_spec.settings_from settings_spec.no_settings (map string_bytes words.now))) }
    ensures limited { IfOk result spec.IsLimited }
{
    let settings = settings_from(words)?;
    discovery(&settings)
}

fn check(words: &[String]) -> Result<Command<'_>, UsageFault>
    ensures reads { spec.Reads result (spec.check_of (map string_bytes words.now)) }
    ensures limited { IfOk result spec.IsLimited }
{
    match words {
        [rules] if !rules.is_empty() => Ok(Command::Check {
            rules: rules.as_str(),
        }),
        _ => Err(UsageFault::WordCount),
    }
}

fn rewrite(words: &[String]) -> Result<Command<'_>, UsageFault>
    ensures reads { spec.Reads result (spec.rewrite_of (map string_bytes words.now)) }
    ensures limited { IfOk result spec.IsLimited }
{
    match words {
        [rules, schema, queries]
            if !rules.is_empty() && !schema.is_empty() && !queries.is_empty() => {
            Ok(Command::Rewrite {
                rules: rules.as_str(),
                schema: schema.as_str(),
                queries: queries.as_str(),
            })
        }
        _ => Err(UsageFault::WordCount),
    }
}

fn demo<'a>(words: &[String]) -> Result<Command<'a>, UsageFault>
    ensures reads { spec.Reads result (spec.demo_of (map string_bytes words.now)) }
    ensures limited { IfOk result spec.IsLimited }
{
    let [first, count] = words else {
        return Err(UsageFault::WordCount);
    };
    let first = number(first, 0, 999_999)?;
    let count = number(count, 1, 100_000)?;
    Ok(Command::Demo { first, count })
}

/// The command that the words give, or the first fault of them.
pub fn read_words(words: &[String]) -> Result<Command<'_>, UsageFault>
    ensures reads { spec.Reads result (spec.command_of (map string_bytes words.now)) }
    ensures limited { IfOk result spec.IsLimited }
{
    let [command, others @ ..] = words else {
        return Err(UsageFault::NoCommand);
    };
    match command.as_str() {
        "discover" => discover(others),
        "check" => check(others),
        "rewrite" => rewrite(others),
        "demo" => demo(others),
        _ => Err(UsageFault::UnknownCommand),
    }
}
