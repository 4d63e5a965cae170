//! The table of commands: each has a name, and a list of arguments for the words after it.
use command_words::{Argument, Form};

/// What a command does.
#[derive(Clone, Copy, Debug, PartialEq, Eq)]
pub enum CommandKind {
    /// Prints the current index block and the labels of a module.
    Labels,
    /// Prints the modules and regions of the firmware's table.
    Nfit,
    /// Prints the namespaces.
    List,
    /// Writes fresh index blocks into the label area of a module.
    Init,
    /// Makes a namespace.
    Create,
    /// Removes a namespace.
    Delete,
    /// Gives a namespace another name.
    Rename,
    /// Prints the arenas of a namespace.
    Info,
    /// Checks the arenas of a namespace.
    Check,
    /// Checks the whole set. It has no name of its own: it is `check` without another word.
    CheckSet,
    /// Repairs the label areas of the whole set, and checks it. It is `check` with the word
    /// `--repair` alone.
    RepairSet,
    /// Prints a sector of a namespace.
    Read,
    /// Writes a sector of a namespace.
    Write,
    /// Plays a schedule on the lanes of a namespace's arena.
    Replay,
    /// Prints all bytes of a namespace.
    Export,
    /// Prints all bytes of a namespace that can still be read.
    Rescue,
    /// Fills a namespace with the bytes of the script.
    Import,
    /// Runs the sessions of the script.
    Serve,
    /// Runs sessions whose calls follow from a number.
    Load,
}

/// The number of a module.
const MODULE: Argument = Argument {
    name: "module",
    form: Form::Place,
};

/// The UUID of a namespace, at its place among the words.
const UUID: Argument = Argument {
    name: "uuid",
    form: Form::Place,
};

/// The number of a sector.
const SECTOR: Argument = Argument {
    name: "sector",
    form: Form::Place,
};

/// The value of a sector.
const VALUE: Argument = Argument {
    name: "value",
    form: Form::Place,
};

/// The other name of a namespace.
const NAME: Argument = Argument {
    name: "name",
    form: Form::Place,
};

/// The UUID of a namespace that is made.
const CREATED_UUID: Argument = Argument {
    name: "uuid",
    form: Form::Required,
};

/// Its name.
const CREATED_NAME: Argument = Argument {
    name: "name",
    form: Form::Required,
};

/// The number of its region.
const REGION: Argument = Argument {
    name: "region",
    form: Form::Required,
};

/// Its bytes, those of all modules together.
const SIZE: Argument = Argument {
    name: "size",
    form: Form::Required,
};

/// What it is made as.
const MODE: Argument = Argument {
    name: "mode",
    form: Form::Required,
};

/// The bytes of a sector.
const CREATED_SECTOR: Argument = Argument {
    name: "sector",
    form: Form::Optional,
};

/// For how many writers there is room.
const LANES: Argument = Argument {
    name: "lanes",
    form: Form::Optional,
};

/// After how many steps power is cut.
const CUT: Argument = Argument {
    name: "cut",
    form: Form::Optional,
};

/// The seed of the chooser that says which unflushed words survive a power cut.
const EVICT: Argument = Argument {
    name: "evict",
    form: Form::Optional,
};

/// The number from which the calls of sessions follow.
const NUMBER: Argument = Argument {
    name: "number",
    form: Form::Place,
};

/// The UUID of a namespace that sessions open.
const LOADED_UUID: Argument = Argument {
    name: "uuid",
    form: Form::Required,
};

/// How many sessions there are.
const SESSIONS: Argument = Argument {
    name: "sessions",
    form: Form::Optional,
};

/// How many calls on sectors each session makes.
const CALLS: Argument = Argument {
    name: "calls",
    form: Form::Optional,
};

/// In how many threads sessions run, at most.
const WORKERS: Argument = Argument {
    name: "workers",
    form: Form::Optional,
};

/// Whether what can be repaired is.
const REPAIR: Argument = Argument {
    name: "repair",
    form: Form::Flag,
};

/// Whether bad sectors count as zeros.
const BAD_AS_ZEROS: Argument = Argument {
    name: "bad-as-zeros",
    form: Form::Flag,
};

/// Whether what is lost is listed.
const LOST: Argument = Argument {
    name: "lost",
    form: Form::Flag,
};

impl CommandKind {
    ghost use Rattle.std.specs.Prelude.{◌≡◌, map, string_bytes};
    ghost use Rattle.command_words.specs.App.{said};
    ghost use Rattle.shell_run.specs.Commands.{kind_of, kind_with, arguments_of};

    /// The command that a name says.
    #[tactic(auto, using(nvd_words::proofs::Checks::choices), unfolding(crate::specs::Commands::kind_of))]
    pub fn of_name(name: &str) -> Option<CommandKind>
        ensures { result ≡ kind_of name.now }
    {
        if name == "labels" {
            return Some(CommandKind::Labels);
        }
        if name == "nfit" {
            return Some(CommandKind::Nfit);
        }
        if name == "list" {
            return Some(CommandKind::List);
        }
        if name == "init" {
            return Some(CommandKind::Init);
        }
        if name == "create" {
            return Some(CommandKind::Create);
        }
        if name == "delete" {
            return Some(CommandKind::Delete);
        }
        if name == "rename" {
            return Some(CommandKind::Rename);
        }
        if name == "info" {
            return Some(CommandKind::Info);
        }
        if name == "check" {
            return Some(CommandKind::Check);
        }
        if name == "read" {
            return Some(CommandKind::Read);
        }
        if name == "write" {
            return Some(CommandKind::Write);
        }
        if name == "replay" {
            return Some(CommandKind::Replay);
        }
        if name == "export" {
            return Some(CommandKind::Export);
        }
        if name == "rescue" {
            return Some(CommandKind::Rescue);
        }
        if name == "import" {
            return Some(CommandKind::Import);
        }
        if name == "serve" {
            return Some(CommandKind::Serve);
        }
        if name == "load" {
            return Some(CommandKind::Load);
        }
        None
    }

    /// The command that a name says with the words after it: `check` alone is the check of the whole
    /// set, and `check --repair` its repair.
    pub fn of_words(name: &str, words: &[String]) -> Option<CommandKind>
        ensures { result ≡ kind_with name.now (map string_bytes words.now) }
    {
        match words {
            [] if name == "check" => Some(CommandKind::CheckSet),
            [word] if name == "check" && word.as_str() == "--repair" => {
                Some(CommandKind::RepairSet)
            }
            _ => CommandKind::of_name(name),
        }
    }

    /// The command's arguments.
    pub fn arguments(self) -> &'static [Argument]
        ensures { map said result.now ≡ arguments_of self }
    {
        match self {
            CommandKind::Labels => &[MODULE],
            CommandKind::Nfit => &[],
            CommandKind::List => &[],
            CommandKind::Init => &[MODULE, CUT, EVICT],
            CommandKind::Create => &[
                CREATED_UUID,
                CREATED_NAME,
                REGION,
                SIZE,
                MODE,
                CREATED_SECTOR,
                LANES,
                CUT,
                EVICT,
            ],
            CommandKind::Delete => &[UUID, CUT, EVICT],
            CommandKind::Rename => &[UUID, NAME, CUT, EVICT],
            CommandKind::Info => &[UUID],
            CommandKind::Check => &[UUID, REPAIR],
            CommandKind::CheckSet => &[],
            CommandKind::RepairSet => &[REPAIR],
            CommandKind::Read => &[UUID, SECTOR],
            CommandKind::Write => &[UUID, SECTOR, VALUE],
            CommandKind::Replay => &[UUID, EVICT],
            CommandKind::Export => &[UUID, BAD_AS_ZEROS],
            CommandKind::Rescue => &[UUID, LOST],
            CommandKind::Import => &[UUID],
            CommandKind::Serve => &[WORKERS, EVICT],
            CommandKind::Load => &[NUMBER, LOADED_UUID, SESSIONS, CALLS, WORKERS],
        }
    }
}
