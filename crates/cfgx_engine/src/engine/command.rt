//! The command line.

ghost use Rattle.std.specs.Prelude.{◌≡◌};
ghost use Rattle.cfgx_engine.specs.internal.Shows.{command_request};
ghost use Rattle.cfgx_engine.specs.Request.{eval_request, parse_request, pick_request};
ghost use Rattle.cfgx_engine.specs.Request.{request_of, target_request, texts};

/// A command with its arguments.
#[derive(Clone, Copy)]
pub(super) enum Command<'a> {
    Parse(&'a str),
    Eval(&'a str, &'a [&'a str]),
    Target(&'a str, &'a str),
    Pick(&'a str),
    WrongUse,
}

/// Returns the command in `words`, those after the program's name.
pub(super) fn command_of<'a>(words: &'a [&'a str]) -> Command<'a>
    ensures { command_request result ≡ request_of (texts words.now) }
{
    let Some((name, arguments)) = words.split_first() else {
        return Command::WrongUse;
    };
    match *name {
        "parse" => parse_command(arguments),
        "eval" => eval_command(arguments),
        "target" => target_command(arguments),
        "pick" => pick_command(arguments),
        _ => Command::WrongUse,
    }
}

/// Returns the command `parse` with `arguments`.
fn parse_command<'a>(arguments: &'a [&'a str]) -> Command<'a>
    ensures { command_request result ≡ parse_request (texts arguments.now) }
{
    match arguments {
        [text] => Command::Parse(text),
        _ => Command::WrongUse,
    }
}

/// Returns the command `eval` with `arguments`.
fn eval_command<'a>(arguments: &'a [&'a str]) -> Command<'a>
    ensures { command_request result ≡ eval_request (texts arguments.now) }
{
    match arguments.split_first() {
        Some((text, flags)) => Command::Eval(text, flags),
        None => Command::WrongUse,
    }
}

/// Returns the command `target` with `arguments`.
fn target_command<'a>(arguments: &'a [&'a str]) -> Command<'a>
    ensures { command_request result ≡ target_request (texts arguments.now) }
{
    match arguments {
        [triple, text] => Command::Target(triple, text),
        _ => Command::WrongUse,
    }
}

/// Returns the command `pick` with `arguments`.
fn pick_command<'a>(arguments: &'a [&'a str]) -> Command<'a>
    ensures { command_request result ≡ pick_request (texts arguments.now) }
{
    match arguments {
        [triple] => Command::Pick(triple),
        _ => Command::WrongUse,
    }
}
